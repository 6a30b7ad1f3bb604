//! What a client was answered.
ghost use Rattle.std.specs.Prelude.{◌≡◌, false, []};

use crate::reply::Reply;
use std::alloc::Global;
use std::marker::Model;

/// What a client was answered: replies to its commands, or, where memory was wanting, to the first of them.
#[derive(Drop)]
pub struct Answered {
    replies: Vec<Reply>,
    whole: bool,
}

impl Model for Answered {
    ghost use Rattle.wp_text.specs.Answered.{Answered};

    ghost Value = { Answered };

    ghost view = { λ a. record { replies = a.replies.items; whole = a.whole } };
}

impl Answered {
    /// These replies, and whether each command has its own.
    pub fn new(replies: Vec<Reply>, whole: bool) -> Answered
        ensures { result ≡ record { replies = replies.items; whole = whole } }
    {
        Answered { replies, whole }
    }

    /// None yet.
    pub fn none(alloc: Global) -> Answered
        ensures { result ≡ record { replies = []; whole = false } }
    {
        Answered {
            replies: Vec::new(alloc),
            whole: false,
        }
    }

    pub fn replies(&self) -> &[Reply]
        ensures { result.now ≡ self.now.replies }
    {
        &self.replies
    }

    /// Whether each command has its reply.
    pub fn is_whole(&self) -> bool
        ensures { result ≡ self.now.whole }
    {
        self.whole
    }
}
