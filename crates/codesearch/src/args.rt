// The command-line arguments of the process.
use std::alloc::{AllocError, Global};
use std::env::FillError;
use std::rt::Env;

/// The initial buffer size for an argument, in bytes.
const FIRST_CAPACITY: usize = 256;

/// Reads the arguments after the program's name into `args`, up to the first that is not UTF-8.
/// Returns whether there is such a one.
pub(crate) fn read_args<E: Env>(
    alloc: Global,
    env: &E,
    args: &mut Vec<String>,
) -> Result<bool, AllocError> {
    for position in 1..usize::MAX {
        let Some(bytes) = arg_at(alloc, env, position)? else {
            break;
        };
        match String::from_utf8(bytes) {
            Ok(arg) => args.push(arg)?,
            Err(_) => return Ok(true),
        }
    }
    Ok(false)
}

/// The path that the program is run by; empty if there is none or it is not UTF-8.
pub(crate) fn program_path<E: Env>(alloc: Global, env: &E) -> Result<String, AllocError> {
    let bytes = arg_at(alloc, env, 0)?.unwrap_or(Vec::new(alloc));
    Ok(String::from_utf8(bytes).unwrap_or(String::new(alloc)))
}

/// The bytes of an argument, if it exists. The buffer doubles until the argument fits.
fn arg_at<E: Env>(alloc: Global, env: &E, position: usize) -> Result<Option<Vec<u8>>, AllocError> {
    let mut capacity = FIRST_CAPACITY;
    let mut bytes = Vec::new(alloc);
    'doubling: for _ in 0..usize::BITS {
        bytes.resize(capacity, 0u8)?;
        match env.arg(position, bytes.as_mut_slice()) {
            Ok(len) => {
                bytes.truncate(len);
                return Ok(Some(bytes));
            }
            Err(FillError::NotPresent) => return Ok(None),
            Err(FillError::TooLong) => capacity = capacity.saturating_mul(2),
        }
    }
    Err(AllocError)
}
