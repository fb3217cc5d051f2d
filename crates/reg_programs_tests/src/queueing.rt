//! What does a queue report before its first connection?

use crate::wanted::holds;
use reg_programs::{QueueState, queues_of};
use std::test::Fail;

#[test]
fn a_queue_begins_open_and_empty_and_without_its_worker(rt: HostRuntime) -> Result<(), Fail> {
    let state = QueueState {
        waiting: 0,
        has_worker: false,
        is_closed: false,
    };
    let queues = queues_of(rt.alloc(), 2)?;
    for queue in queues.as_slice() {
        holds(&rt, queue.state(&rt) == state, "the state of a new queue");
    }
    Ok(())
}
