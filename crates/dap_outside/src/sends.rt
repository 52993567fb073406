//! Fates may move to another thread with the end that follows them.

use crate::{KeptFates, ListFates};

fn is_send<X: Send>() {}

fn fates_are_send() {
    is_send::<ListFates>();
    is_send::<KeptFates>();
}
