//! What is told of a line: the replies to the lines whose batch ended, and its own answer.
ghost use Rattle.std.specs.Prelude.{◌≡◌, ◌++◌, [], IfOk, OnErr, max, replicate};
ghost use Rattle.fl_sink.specs.Sink.{Puts};
ghost use Rattle.fl_system.specs.declared.reply.Reply.TheVariants.{Refused};
ghost use Rattle.fl_turns.specs.Answer.{status_of};
ghost use Rattle.fl_turns.specs.AnswerText.{text_of};
ghost use Rattle.fl_crew_turns.specs.Batch.{replies_text, worst_reply};
ghost use Rattle.fl_crew_session.specs.Told.{replies_of, shown};

use fl_aliases::table::Aliases;
use fl_cluster::answers::write_alone;
use fl_cluster::response::{Response, reply_status};
use fl_replies::text::write_world_reply;
use fl_sink::sink::{Sink, WriteFault};
use fl_sink::writer::Writer;
use fl_system::answer::Fault;
use fl_system::reply::Reply;
use std::alloc::Global;

/// The replies to the lines of a batch that has ended, in their order.
#[derive(Drop)]
pub(crate) enum Replies {
    /// To each its own.
    Each(Vec<Reply>),
    /// Nothing was begun: so many lines are refused with this fault.
    All(usize, Fault),
}

/// What is told of a line.
#[derive(Drop)]
pub(crate) struct Told {
    /// What the lines are replied whose batch ended with it.
    pub(crate) replies: Replies,
    /// What it is answered itself.
    pub(crate) own: Response,
}

impl Replies {
    /// No reply. Takes no memory.
    pub(crate) fn none(alloc: Global) -> Self
        ensures { replies_of result ≡ [] }
    {
        Replies::Each(Vec::new(alloc))
    }

    /// Puts the replies into the sink, a line each, and gives the greatest status of a line.
    ///
    /// At a fault a front of what waited and of the replies was written.
    pub(crate) fn write<W: Writer>(&self, sink: &mut Sink, output: &mut W) -> Result<u8, WriteFault>
        ensures puts { let text = replies_text (replies_of self.now) in
            Puts (W.contents output.old) (W.contents output.new) sink.old text sink.new result }
        ensures status { IfOk result (λ status. status ≡ worst_reply (replies_of self.now)) }
        ensures cause { OnErr result (W.has_failed output.new) }
    {
        match self {
            Replies::Each(replies) => write_each(replies, sink, output),
            Replies::All(count, fault) => write_refusals(*count, *fault, sink, output),
        }
    }
}

impl Told {
    /// Puts what is told of the line of this number into the sink, where these aliases are set, and
    /// gives the greatest status of a line of which something is told.
    ///
    /// At a fault a front of what waited and of the text was written.
    pub(crate) fn write<W: Writer>(
        &self,
        number: u64,
        aliases: &Aliases,
        sink: &mut Sink,
        output: &mut W,
    ) -> Result<u8, WriteFault>
        ensures puts { let own = text_of number (shown aliases.now self.now.own) in
            let text = replies_text (replies_of self.now.replies) ++ own in
            Puts (W.contents output.old) (W.contents output.new) sink.old text sink.new result }
        ensures status { IfOk result (λ status.
            status ≡ max (worst_reply (replies_of self.now.replies))
            (status_of (shown aliases.now self.now.own))) }
        ensures cause { OnErr result (W.has_failed output.new) }
    {
        let worst = self.replies.write(sink, output)?;
        write_own(number, &self.own, aliases, sink, output)?;
        Ok(worst.max(self.own.status()))
    }
}

// Puts these replies into the sink, and gives the greatest status of a line.
fn write_each<W: Writer>(
    replies: &[Reply],
    sink: &mut Sink,
    output: &mut W,
) -> Result<u8, WriteFault>
    ensures puts { let text = replies_text replies.now in
        Puts (W.contents output.old) (W.contents output.new) sink.old text sink.new result }
    ensures status { IfOk result (λ status. status ≡ worst_reply replies.now) }
    ensures cause { OnErr result (W.has_failed output.new) }
{
    let mut worst = 0;
    for reply in replies {
        write_world_reply(reply, sink, output)?;
        worst = worst.max(reply_status(reply));
    }
    Ok(worst)
}

// Puts so many refusals with this fault into the sink, and gives the greatest status of a line.
fn write_refusals<W: Writer>(
    count: usize,
    fault: Fault,
    sink: &mut Sink,
    output: &mut W,
) -> Result<u8, WriteFault>
    ensures puts { let text = replies_text (replicate count (Reply.Refused fault)) in
        Puts (W.contents output.old) (W.contents output.new) sink.old text sink.new result }
    ensures status { IfOk result (λ status.
        status ≡ worst_reply (replicate count (Reply.Refused fault))) }
    ensures cause { OnErr result (W.has_failed output.new) }
{
    let refusal = Reply::Refused(fault);
    let mut worst = 0;
    for _done in 0..count {
        write_world_reply(&refusal, sink, output)?;
        worst = reply_status(&refusal);
    }
    Ok(worst)
}

// Puts what the line of this number is answered itself into the sink, where these aliases are set.
fn write_own<W: Writer>(
    number: u64,
    own: &Response,
    aliases: &Aliases,
    sink: &mut Sink,
    output: &mut W,
) -> Result<(), WriteFault>
    ensures puts { let text = text_of number (shown aliases.now own.now) in
        Puts (W.contents output.old) (W.contents output.new) sink.old text sink.new result }
    ensures cause { OnErr result (W.has_failed output.new) }
{
    match own {
        Response::Silence => sink.put_all(output, &[]),
        Response::Said(said) => write_alone(number, said, sink, output),
        Response::Aliases => aliases.write_text(sink, output),
    }
}
