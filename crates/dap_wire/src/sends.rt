//! Each end may move to another thread, where its fates may.

use crate::{FrontEnd, LaneEnd, LinkEnd};
use dap_outside::Fates;

fn is_send<X: Send>() {}

fn ends_are_send<T: Fates + Send>() {
    is_send::<LinkEnd<T>>();
    is_send::<FrontEnd>();
    is_send::<LaneEnd>();
}
