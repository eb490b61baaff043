// What report_errors has as Option<Option<Span>>, a case of its own in document 01: who takes a value, going from its last use to its first.
use crate::ids::Span;

#[derive(Clone, Copy, Debug, PartialEq, Eq)]
pub enum Consumer {
    // nobody
    Missing,
    // somebody beyond the stage, or in an interface: no span is known
    Unplaced,
    // the invocation at this span
    At(Span),
}
