//! Gates, at which a test can hold up a worker.

/// What a worker passes before and after each of its calls. Each pass numbers its calls from 0.
pub trait Gate {
    /// Before the call, and before the wait for a name that the call is on.
    fn before(&self, pass: usize, call: usize);

    /// After the call has its answer, and the name that it binds is bound.
    fn after(&self, pass: usize, call: usize);
}

/// A gate that does nothing.
#[derive(Clone, Copy, Drop)]
pub struct OpenGate;

impl Gate for OpenGate {
    fn before(&self, _pass: usize, _call: usize) {}

    fn after(&self, _pass: usize, _call: usize) {}
}
