//! What the lines of a batch are replied.
ghost use Rattle.std.specs.Prelude.{◌≡◌, ◌<◌, ◌≤◌, ◌+◌, ◌++◌, length, vec_capacity, vec_len};
ghost use Rattle.fl_crew_calls.specs.Told.{all_sent, replies_behind, reply_behind, sent_by};

use fl_crew_model::record::Told as Word;
use fl_system::reply::Reply;
use fl_wire::packet::Packet;
use fl_workers::entry::{Entry, Reply as Told};

// What is replied to an item of a batch. A message that it sends is kept, for which there is room.
fn reply_to(sent: &mut Vec<Packet>, told: Told) -> Reply
    requires { vec_len sent.old < vec_capacity sent.old }
    ensures reply { result ≡ reply_behind (length sent.old.items) told }
    ensures sent { sent.new.items ≡ sent.old.items ++ sent_by told }
    ensures room { vec_capacity sent.new ≡ vec_capacity sent.old }
    ensures one { vec_len sent.new ≤ vec_len sent.old + 1 }
{
    match told {
        Told::Took(count) => Reply::Took(count),
        Told::Told(Word::Reply(reply)) => Reply::Job(reply),
        Told::Told(Word::Out(message)) => {
            let first = sent.len() as u64 + 1;
            sent.push_reserved(Packet::Data(message));
            Reply::Sent { first, count: 1 }
        }
        Told::Told(Word::Published(name)) => Reply::Published(name),
        Told::Told(Word::Refused(fault)) => Reply::Refused(fault),
    }
}

/// Puts what each item of a batch is replied behind these replies, where there is room, and keeps
/// the messages that they send, for which there is room too. Takes no memory.
pub(crate) fn tell_all(sent: &mut Vec<Packet>, entries: Vec<Entry>, replies: &mut Vec<Reply>)
    requires sent { vec_len sent.old + length entries.items ≤ vec_capacity sent.old }
    requires replies { vec_len replies.old + length entries.items ≤ vec_capacity replies.old }
    ensures sent { sent.new.items ≡ sent.old.items ++ all_sent entries.items }
    ensures replies { replies.new.items
        ≡ replies.old.items ++ replies_behind sent.old.items entries.items }
{
    for entry in entries {
        let reply = reply_to(sent, entry.reply);
        replies.push_reserved(reply);
    }
}
