// A call of a case: its command line as it is told, and what fails in it.
use std::alloc::{AllocError, Global};
use worked_cases::{Case, Command, Faults, When};

/// What is told at the head of a call, and what fails in it.
#[derive(Drop)]
pub struct Call {
    pub head: Vec<u8>,
    pub faults: Faults,
}

impl Call {
    /// The call of a command in which these fail, and what always does in this case.
    pub fn new(
        alloc: Global,
        case: &Case,
        command: &Command,
        whens: &[&When],
    ) -> Result<Call, AllocError> {
        let mut call = Call {
            head: Vec::new(alloc),
            faults: Faults::new(alloc),
        };
        match call.add_all(case, command, whens) {
            Ok(()) => Ok(call),
            Err(e) => {
                drop(call);
                Err(e)
            }
        }
    }

    /// The same once more, in which nothing else fails.
    pub fn again(alloc: Global, case: &Case, command: &Command) -> Result<Call, AllocError> {
        let mut call = Call::new(alloc, case, command, &[])?;
        call.head.extend_from_slice(b" again")?;
        Ok(call)
    }

    fn add_all(
        &mut self,
        case: &Case,
        command: &Command,
        whens: &[&When],
    ) -> Result<(), AllocError> {
        self.add_always(case, command)?;
        for (k, when) in whens.iter().enumerate() {
            self.add_when(if k == 0 { b" when " } else { b" and " }, when)?;
        }
        Ok(())
    }

    fn add_always(&mut self, case: &Case, command: &Command) -> Result<(), AllocError> {
        self.head.extend_from_slice(b"flume")?;
        if !command.line.is_empty() {
            self.head.push(b' ')?;
            self.head.extend_from_slice(&command.line)?;
        }
        self.faults.add(&case.always)
    }

    fn add_when(&mut self, word: &[u8], when: &When) -> Result<(), AllocError> {
        self.head.extend_from_slice(word)?;
        self.head.extend_from_slice(&when.line)?;
        self.faults.add(&when.faults)
    }
}
