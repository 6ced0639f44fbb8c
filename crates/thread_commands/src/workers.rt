//! Workers.
use heap_api::Caller;
use heap_model::Reply;
use name_values::Names;

/// What runs the threads of one number: their caller, what names stand for, and what the thread was answered in this round. It is short
/// once it has found no memory.
#[derive(Drop)]
pub struct Worker {
    pub caller: Caller,
    pub names: Names,
    pub replies: Vec<Reply>,
    pub short: bool,
}
