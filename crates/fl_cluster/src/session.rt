//! What the lines of a script made, and the aliases of it.
ghost use Rattle.std.specs.Prelude.{◌≡◌, ◌<◌, ℕ, All, IfOk, IsSome, List, None, OnErr, Some, length, true};
ghost use Rattle.fl_aliases.specs.Table.{Table, target_of};
ghost use Rattle.fl_calls.specs.Closing.{MayBeLeft};
ghost use Rattle.fl_store.specs.Kept.{Kept};
ghost use Rattle.fl_script.specs.Grammar.{nodes_of};
ghost use Rattle.fl_script.specs.Reading.{IsReading, ReadingTakesMemory, makes};
ghost use Rattle.fl_script.specs.declared.reading.Reading.TheVariants as reading;
ghost use Rattle.fl_turns.specs.Naming.{IsPlaced, renamed};
ghost use Rattle.fl_turns.specs.Failing.{FailsRead, FailsSaid};
ghost use Rattle.fl_stream.specs.Turns.{AnswerCuts, AnswerPasses};
ghost use Rattle.fl_turns.specs.Over.{SessionOver, TurnOver, TurnsOver, begun_over};
ghost use Rattle.fl_cluster.specs.Shown.{shown, status_said};
ghost use Rattle.fl_cluster.specs.parts.Answering.{Names, NamesOrStarves};

use crate::answers::write_response;
use crate::asking::{LOOK, respond_to};
use crate::response::{Response, reply_status};
use fl_aliases::alias::Alias;
use fl_aliases::table::Aliases;
use fl_aliases::target::Target;
use fl_calls::cluster::Cluster;
use fl_calls::response::Response as Said;
use fl_jobs::job::Job;
use fl_labels::name::{Name, NodeNumber};
use fl_makers::maker::MakesKeepers;
use fl_replies::text::write_world_reply;
use fl_script::line::Line;
use fl_script::reading::{Reading, read_line};
use fl_script::request::Request;
use fl_sink::sink::{Sink, WriteFault};
use fl_sink::writer::Writer;
use fl_stream::responder::Responder;
use fl_system::answer::Fault;
use fl_system::reply::Reply;
use std::alloc::{AllocError, Global};
use std::marker::Model;

/// What an alias stands for until its line is answered.
const UNMADE: Target = Target::Operation(Name { node: 1, seq: 1 });

// Lets go of a line that is not answered.
fn let_go(_line: Line) {}

// Has an alias that was placed for a line stand for what the line made. Where it made nothing, all
// aliases are as they were.
fn settle(aliases: &mut Aliases, alias: Alias, is_new: bool, made: Option<Target>)
    requires { IsSome (target_of aliases.old alias) }
    ensures { (before : Table) → IsPlaced before alias is_new aliases.old →
        aliases.new ≡ renamed before (Some alias) made }
{
    match made {
        Some(target) => aliases.set(alias, target),
        None => {
            if is_new {
                aliases.take_back();
            }
        }
    }
}

/// The world of a script with who makes its keepers, and the aliases of what its lines made. A run
/// gives it back.
pub struct Session<M: MakesKeepers> {
    cluster: Cluster<M>,
    aliases: Aliases,
    // The words of a line in which aliases were replaced, in room that the next line has too.
    text: String,
}

impl<M: MakesKeepers> Model for Session<M> {
    ghost use Rattle.fl_turns.specs.Over.{SessionOver, coded_session_over};

    ghost Value = { SessionOver M.K M };

    ghost coded = { coded_session_over M.K.code M.code };

    ghost view = { λ s. record { cluster = s.cluster; aliases = s.aliases } };
}

impl<M: MakesKeepers + Drop> Drop for Session<M> {
    fn drop(self) {
        let Session {
            cluster: _,
            aliases: _,
            text: _,
        } = self;
    }
}

impl<M: MakesKeepers> Session<M> {
    /// No node and no alias, before the first line. Takes no memory.
    pub(crate) fn new(alloc: Global, keepers: M) -> Self
        ensures { result ≡ begun_over keepers }
    {
        Session {
            cluster: Cluster::new(alloc, keepers),
            aliases: Aliases::new(alloc),
            text: String::new(alloc),
        }
    }

    /// Gives each node's keeper back to the maker, and gives that, as [`Cluster::close`] has it.
    pub fn close(self) -> M
        ensures { (number : ℕ) (k : Kept) → M.making.finds result number k
            → MayBeLeft M.K.custody M.making self.cluster number k }
    {
        let Session {
            cluster,
            aliases: _,
            text: _,
        } = self;
        cluster.close()
    }

    /// Its world, with who makes the keepers of its nodes.
    pub fn cluster(&self) -> &Cluster<M>
        ensures { result.now ≡ self.now.cluster }
    {
        &self.cluster
    }

    /// Its aliases.
    pub fn aliases(&self) -> &Aliases
        ensures { result.now ≡ self.now.aliases }
    {
        &self.aliases
    }

    // Does the job at the only desk of the node, as `Cluster::job` has it.
    fn work(&mut self, alloc: Global, node: NodeNumber, job: &mut Job) -> Reply
        requires { 0 < node }
        ensures names { let line = Line.Node node (Request.Job job.old) in
            Names M.K.custody M.making self.old line None
            (Response.Said (Said.Reply result)) self.new }
        ensures cause { let line = Line.Node node (Request.Job job.old) in
            result ≡ Reply.Refused Fault.KeeperFailed
            → FailsSaid M.K.custody M.making self.old.cluster self.new.cluster line }
    {
        self.cluster.job(alloc, node, LOOK, job)
    }

    // Puts what is answered to the line of this number into the sink, and says its status.
    #[inline(always)]
    fn say<W: Writer>(
        &self,
        number: u64,
        response: Response,
        sink: &mut Sink,
        output: &mut W,
    ) -> Result<u8, WriteFault>
        ensures ok { (old : SessionOver M.K M) (bytes : List ℕ)
            → TurnOver M.K.custody M.making old bytes (shown self.now response) self.now
            → (status_said response ≡ 3 → FailsRead M.K.custody M.making
            old.aliases old.cluster self.now.cluster bytes)
            → IfOk result (λ status. AnswerPasses (TurnsOver M.K.custody M.making)
            number old bytes status self.now
            (W.contents output.old) (W.contents output.new) sink.old sink.new) }
        ensures err { (old : SessionOver M.K M) (bytes : List ℕ)
            → TurnOver M.K.custody M.making old bytes (shown self.now response) self.now
            → (status_said response ≡ 3 → FailsRead M.K.custody M.making
            old.aliases old.cluster self.now.cluster bytes)
            → OnErr result (AnswerCuts (TurnsOver M.K.custody M.making)
            number old bytes self.now
            (W.contents output.old) (W.contents output.new) sink.old) }
        ensures cause { OnErr result (W.has_failed output.new) }
    {
        write_response(self, number, &response, sink, output)?;
        Ok(response.status())
    }

    // Answers that the line of this number is none of the script.
    fn answer_bad<W: Writer>(
        &self,
        number: u64,
        sink: &mut Sink,
        output: &mut W,
    ) -> Result<u8, WriteFault>
        ensures ok { (bytes : List ℕ) → IsReading self.now.aliases bytes reading.Bad
            → IfOk result (λ status. AnswerPasses (TurnsOver M.K.custody M.making)
            number self.now bytes status self.now
            (W.contents output.old) (W.contents output.new) sink.old sink.new) }
        ensures err { (bytes : List ℕ) → IsReading self.now.aliases bytes reading.Bad
            → OnErr result (AnswerCuts (TurnsOver M.K.custody M.making)
            number self.now bytes self.now
            (W.contents output.old) (W.contents output.new) sink.old) }
        ensures cause { OnErr result (W.has_failed output.new) }
    {
        self.say(number, Response::bad_line(), sink, output)
    }

    // Answers that there was not enough memory to read the line of this number.
    fn answer_starved<W: Writer>(
        &self,
        number: u64,
        sink: &mut Sink,
        output: &mut W,
    ) -> Result<u8, WriteFault>
        ensures ok { (bytes : List ℕ) → ReadingTakesMemory bytes
            → IfOk result (λ status. AnswerPasses (TurnsOver M.K.custody M.making)
            number self.now bytes status self.now
            (W.contents output.old) (W.contents output.new) sink.old sink.new) }
        ensures err { (bytes : List ℕ) → ReadingTakesMemory bytes
            → OnErr result (AnswerCuts (TurnsOver M.K.custody M.making)
            number self.now bytes self.now
            (W.contents output.old) (W.contents output.new) sink.old) }
        ensures cause { OnErr result (W.has_failed output.new) }
    {
        self.say(number, Response::starved(), sink, output)
    }

    // Answers the line of this number, and has its alias, if it has one, stand for what it made.
    fn answer_meant<W: Writer>(
        &mut self,
        alloc: Global,
        number: u64,
        line: Line,
        alias: Option<Alias>,
        sink: &mut Sink,
        output: &mut W,
    ) -> Result<u8, WriteFault>
        requires { (bytes : List ℕ) × IsReading self.old.aliases bytes (reading.Means line alias) }
        ensures ok { (bytes : List ℕ) → IsReading self.old.aliases bytes (reading.Means line alias)
            → IfOk result (λ status. AnswerPasses (TurnsOver M.K.custody M.making)
            number self.old bytes status self.new
            (W.contents output.old) (W.contents output.new) sink.old sink.new) }
        ensures err { (bytes : List ℕ) → IsReading self.old.aliases bytes (reading.Means line alias)
            → OnErr result (AnswerCuts (TurnsOver M.K.custody M.making)
            number self.old bytes self.new
            (W.contents output.old) (W.contents output.new) sink.old) }
        ensures cause { OnErr result (W.has_failed output.new) }
    {
        let response = self.respond(alloc, line, alias);
        self.say(number, response, sink, output)
    }

    // Answers the line, which has no alias. A job is lent to its node as it stands in the line.
    fn answer_plain<W: Writer>(
        &mut self,
        alloc: Global,
        number: u64,
        line: Line,
        sink: &mut Sink,
        output: &mut W,
    ) -> Result<u8, WriteFault>
        requires { (bytes : List ℕ) × IsReading self.old.aliases bytes (reading.Means line None) }
        ensures ok { (bytes : List ℕ) → IsReading self.old.aliases bytes (reading.Means line None)
            → IfOk result (λ status. AnswerPasses (TurnsOver M.K.custody M.making)
            number self.old bytes status self.new
            (W.contents output.old) (W.contents output.new) sink.old sink.new) }
        ensures err { (bytes : List ℕ) → IsReading self.old.aliases bytes (reading.Means line None)
            → OnErr result (AnswerCuts (TurnsOver M.K.custody M.making)
            number self.old bytes self.new
            (W.contents output.old) (W.contents output.new) sink.old) }
        ensures cause { OnErr result (W.has_failed output.new) }
    {
        match line {
            Line::Node {
                node,
                request: Request::Job(mut job),
            } => {
                let reply = self.work(alloc, node, &mut job);
                write_world_reply(&reply, sink, output)?;
                Ok(reply_status(&reply))
            }
            line => self.answer_meant(alloc, number, line, None, sink, output),
        }
    }

    // What is answered to the line, whose alias, if it has one, stands for what it made then.
    fn respond(&mut self, alloc: Global, line: Line, alias: Option<Alias>) -> Response
        requires { (bytes : List ℕ) × IsReading self.old.aliases bytes (reading.Means line alias) }
        ensures turns { (bytes : List ℕ)
            → IsReading self.old.aliases bytes (reading.Means line alias)
            → TurnOver M.K.custody M.making self.old bytes (shown self.new result) self.new }
        ensures cause { (bytes : List ℕ)
            → IsReading self.old.aliases bytes (reading.Means line alias)
            → status_said result ≡ 3 → FailsRead M.K.custody M.making
            self.old.aliases self.old.cluster self.new.cluster bytes }
    {
        match alias {
            None => self.answer(alloc, line),
            Some(alias) => self.answer_named(alloc, line, alias),
        }
    }

    // Answers the line, which has no alias.
    fn answer(&mut self, alloc: Global, line: Line) -> Response
        requires nodes { All (λ node. 0 < node) (nodes_of line) }
        ensures names { Names M.K.custody M.making
            self.old line None result self.new }
        ensures cause { status_said result ≡ 3
            → FailsSaid M.K.custody M.making self.old.cluster self.new.cluster line }
    {
        respond_to(alloc, &mut self.cluster, line)
    }

    // Answers the line, and has the alias stand for what it made. The alias is placed first, so
    // that there is room for it once something is made.
    fn answer_named(&mut self, alloc: Global, line: Line, alias: Alias) -> Response
        requires nodes { All (λ node. 0 < node) (nodes_of line) }
        requires makes { makes line ≡ true }
        requires room { length self.old.aliases < 1024 }
        ensures names { NamesOrStarves M.K.custody M.making
            self.old line (Some alias) result self.new }
        ensures cause { status_said result ≡ 3
            → FailsSaid M.K.custody M.making self.old.cluster self.new.cluster line }
    {
        let Ok(is_new) = self.aliases.place(alias, UNMADE) else {
            let_go(line);
            return Response::starved();
        };
        let response = respond_to(alloc, &mut self.cluster, line);
        settle(&mut self.aliases, alias, is_new, response.made());
        response
    }
}

impl<M: MakesKeepers> Responder for Session<M> {
    ghost use Rattle.fl_turns.specs.Over.{TurnsOver};

    ghost turns = { TurnsOver M.K.custody M.making };

    ghost over = { λ _. ⊥ };

    fn answer<W: Writer>(
        &mut self,
        alloc: Global,
        number: u64,
        line: &[u8],
        sink: &mut Sink,
        output: &mut W,
    ) -> Result<u8, WriteFault> {
        match read_line(alloc, &self.aliases, line, &mut self.text) {
            Ok(Reading::Quiet) => Ok(0),
            Ok(Reading::Means { line, alias: None }) => {
                self.answer_plain(alloc, number, line, sink, output)
            }
            Ok(Reading::Means { line, alias }) => {
                self.answer_meant(alloc, number, line, alias, sink, output)
            }
            Ok(Reading::Bad) => self.answer_bad(number, sink, output),
            Err(AllocError) => self.answer_starved(number, sink, output),
        }
    }

    // A script ends where its bytes end.
    fn is_over(&self) -> bool {
        false
    }

    ghost silent = { λ _ _ _ is_over. absurd is_over };
}
