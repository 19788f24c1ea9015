//! What threads share may be sent to any of them and read by all at once.

use crate::Fault;
use pack_util::is_shared;

fn faults_are_shared(fault: &Fault) {
    is_shared(fault);
}
