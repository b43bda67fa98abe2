//! Replies, and how they are printed.

ghost use Rattle.std.specs.Prelude.{◌≡◌, ◌++◌, IfOk, OnOk};
ghost use Rattle.gx_tool.specs.Reply.{reply_text, is_accepted};

use crate::answer::{Answer, push_answer};
use crate::refusal::{Refusal, push_refusal};
use gx_hash::{Bytes, NoMemory};
use std::alloc::Global;

/// The reply to a request.
#[derive(Debug, Drop)]
pub enum Reply {
    Accepted(Answer),
    Refused(Refusal),
}

impl Reply {
    pub fn is_accepted(&self) -> bool
        ensures { result ≡ is_accepted self.now }
    {
        match self {
            Reply::Accepted(_) => true,
            Reply::Refused(_) => false,
        }
    }
}

#[tactic(auto, unfolding(crate::specs::Reply::reply_text))]
fn push_reply(out: &mut Vec<u8>, reply: &Reply) -> Result<(), NoMemory>
    ensures ok { OnOk result (out.new.items ≡ out.old.items ++ reply_text reply.now) }
{
    match reply {
        Reply::Accepted(answer) => push_answer(out, answer),
        Reply::Refused(refusal) => {
            out.extend_from_slice(b"no ")?;
            push_refusal(out, refusal)?;
            out.push(b'\n')?;
            Ok(())
        }
    }
}

/// The lines of a reply, each with its newline.
pub fn print_reply(alloc: Global, reply: &Reply) -> Result<Bytes, NoMemory>
    ensures { IfOk result (λ line. line ≡ reply_text reply.now) }
{
    let mut out = Vec::new(alloc);
    push_reply(&mut out, reply)?;
    Ok(Bytes::from_vec(out))
}
