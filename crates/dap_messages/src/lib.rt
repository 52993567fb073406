//! Reports and the two aggregators' messages as bytes: what a report and a message are made of, the one spelling of
//! each, and the readers, which name the first place where bytes aren't one. The layers above read and write with
//! `read_report`, `read_message`, `write_report` and `write_message`.
#![tactic(auto)]

mod body;
mod code;
mod extent;
mod fault;
mod fields;
mod item;
mod job;
mod laws;
mod message;
mod reading;
mod reply;
mod report;
mod share;
mod spelled;

pub use body::{Half, MOST_HELPER, MOST_PREP, MOST_PUBLIC, Status, Step};
pub use code::Code;
pub use extent::{Extent, is_span, put_span, read_span};
pub use fault::{Form, ReadFault};
pub use fields::{
    are_bytes, cut_off, is_array, is_name, is_u8, is_u32, is_u64, put_bytes, put_name, put_slice,
    read_array, read_bytes, read_name, read_u8, read_u16, read_u32, read_u64,
};
pub use item::{Items, MOST_ITEMS, Tagged};
pub use job::JobNo;
pub use laws::{forms_are_bounded, items_ascend, spellings_are_read};
pub use message::{MOST_MESSAGE, Message, read_init_req};
pub use reading::{read_message, read_report, write_message, write_report};
pub use reply::{MOST_OUT, Reply};
pub use report::{MOST_LEADER, MOST_REPORT, Report};
pub use share::{ShareReq, ShareResp};
pub use spelled::{Spelled, read_all, write_all};

#[cfg(test)]
mod tests;
