// Where text is printed.
ghost use Rattle.std.specs.Prelude.{◌≡◌, [], None, OnOk};
ghost use Rattle.cs_tree.specs.SinkOutputs.{Prints, given};

use crate::fault::IoFault;
use crate::output::Sent;
use crate::sink::{Sink, write_all};
use std::alloc::AllocError;

/// A sink that text is printed to. After a write that fails nothing more is written, and the fault
/// stays: who prints asks for it before it goes on (like C's `ferror`).
#[derive(Drop)]
pub struct SinkOutput<'s, O> {
    pub(crate) sink: &'s mut O,
    /// All that was printed, whether it was written or not.
    pub(crate) sent: Sent,
    pub(crate) fault: Option<IoFault>,
}

impl<'s, O: Sink> SinkOutput<'s, O> {
    /// The sink, to which nothing was printed.
    pub fn new(sink: &'s mut O) -> SinkOutput<'s, O>
        ensures same_reference { result.sink.ghost_name ≡ sink.entry.ghost_name }
        ensures sink { result.sink.now ≡ sink.old }
        ensures given { given result ≡ [] }
        ensures fault { result.fault ≡ None }
    {
        SinkOutput {
            sink,
            sent: Sent::new(),
            fault: None,
        }
    }

    /// Why a write has failed. None if none has.
    pub fn fault(&self) -> Option<IoFault>
        ensures { result ≡ self.now.fault }
    {
        self.fault
    }

    /// Refuses if a write has failed.
    pub fn check(&self) -> Result<(), AllocError>
        ensures { OnOk result (self.now.fault ≡ None) }
    {
        match self.fault {
            None => Ok(()),
            Some(_) => Err(AllocError),
        }
    }

    /// Prints bytes.
    #[inline(always)]
    pub fn print(&mut self, bytes: &[u8])
        ensures { Prints O.model O.failed self.old self.new bytes.now }
    {
        self.sent.push(bytes);
        if self.fault.is_some() {
            return;
        }
        if let Err(fault) = write_all(self.sink, bytes) {
            self.fault = Some(fault);
        }
    }
}
