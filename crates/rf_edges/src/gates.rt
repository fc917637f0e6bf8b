// What is told of the jobs that begin.

/// A gate is told which job begins. No answer of the program rests on it.
pub trait Gate {
    /// The job of this number begins.
    fn enter(&self, job: u32);
}

/// A gate that lets each job pass and does nothing.
#[derive(Clone, Copy, Debug)]
pub struct OpenGate;

impl Gate for OpenGate {
    fn enter(&self, _job: u32) {}
}
