// A sink that takes all and keeps nothing.
use cs_tree::{IoFault, Sink};

/// A sink that takes all and keeps nothing.
#[derive(Drop)]
pub(crate) struct Unprinted;

impl Sink for Unprinted {
    ghost failed = { λ _. 0 };

    fn write(&mut self, buf: &[u8]) -> Result<usize, IoFault> {
        Ok(buf.len())
    }

    fn flush(&mut self) -> Result<(), IoFault> {
        Ok(())
    }

    fn failures(&self) -> u64 {
        0
    }
}
