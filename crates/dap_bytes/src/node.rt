//! The two aggregators.
ghost use Rattle.std.specs.Prelude.{Some};
ghost use Rattle.dap_bytes.specs.Shown.{node_word};

use std::fmt;

/// One of the two aggregators of the protocol (draft-ietf-ppm-dap-02). It prints as `leader` or `helper`.
#[derive(Clone, Copy, Debug, PartialEq, Eq)]
pub enum Node {
    /// It takes the reports of clients, and leads their preparing and the collections.
    Leader,
    /// It prepares its halves of the reports, and answers the leader.
    Helper,
}

impl fmt::Display for Node {
    ghost output = { λ node. Some (node_word node) };

    fn fmt<W: fmt::Write>(&self, f: &mut fmt::Formatter<W>) -> fmt::Result {
        f.write_str(match self {
            Node::Leader => "leader",
            Node::Helper => "helper",
        })
    }
}
