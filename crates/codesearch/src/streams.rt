// The numbers of the standard streams, which no file of a run may have.

use cs_storage::StorageFault;
use std::fs::{self, File};
use std::os::fd::{AsFd, AsRawFd, BorrowedFd};

/// The first number of a file that is no standard stream.
const FIRST_FILE: i32 = 3;

/// The error of the system for a number that is not open (EBADF).
const NOT_OPEN: i32 = 9;

/// Opens `/` under each number of a standard stream that is closed, and returns what is to be kept
/// open during the run: the system gives a file the lowest free number, so without this the index
/// could be a standard output. A folder can be neither read nor written, so the use of a closed
/// stream fails.
///
/// # Errors
///
/// `/` cannot be opened while a standard stream is closed.
pub(crate) fn hold_streams(rt: &HostRuntime) -> Result<[Option<File>; 3], StorageFault> {
    Ok([hold_stream(rt)?, hold_stream(rt)?, hold_stream(rt)?])
}

/// Opens `/` under the lowest free number, if that is the number of a standard stream.
fn hold_stream(rt: &HostRuntime) -> Result<Option<File>, StorageFault> {
    match fs::open(rt, "/") {
        Ok(folder) if folder.as_raw_fd() < FIRST_FILE => Ok(Some(folder)),
        Ok(_) => Ok(None),
        Err(_) if are_open(rt) => Ok(None),
        Err(error) => Err(StorageFault::from(error)),
    }
}

/// Whether all standard streams are open.
fn are_open(rt: &HostRuntime) -> bool {
    is_open(rt.stdin().as_fd()) && is_open(rt.stdout().as_fd()) && is_open(rt.stderr().as_fd())
}

/// Whether the number is open: it has a copy, or there is only no room for one.
fn is_open(stream: BorrowedFd<'_>) -> bool {
    match stream.try_clone_to_owned() {
        Ok(_) => true,
        Err(error) => error.raw_os_error() != Some(NOT_OPEN),
    }
}
