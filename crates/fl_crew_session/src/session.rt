//! The lines of a script over crews, one after another.
ghost use Rattle.std.specs.Prelude.{◌≡◌, ◌≢◌, ◌+◌, ◌≤◌, ◌↔◌, [], ℕ, IfOk, IsTrue, List, OnErr};
ghost use Rattle.std.specs.Prelude.{Some, length};
ghost use Rattle.fl_script.specs.Reading.{IsReading};
ghost use Rattle.fl_script.specs.declared.reading.Reading.TheVariants.{Means};
ghost use Rattle.fl_store.specs.Kept.{Kept};
ghost use Rattle.fl_stream.specs.Turns.{AnswerCuts, AnswerPasses};
ghost use Rattle.fl_crew_turns.specs.Batch.{BatchCuts, BatchPasses, EndsBatch};
ghost use Rattle.fl_crew_turns.specs.Held.{count_set, held_jobs, none_held};
ghost use Rattle.fl_crew_turns.specs.Naming.{NamesHeld};
ghost use Rattle.fl_crew_turns.specs.Session.{begun_session};
ghost use Rattle.fl_crew_turns.specs.Turn.{AnswersNow, CrewTurn, CrewTurns, GoesOn};
ghost use Rattle.fl_crew_turns.specs.Turn.{HasRoomFor, IsHeard};
ghost use Rattle.fl_crew_calls.specs.Calls.{crews_calls};
ghost use Rattle.fl_crew_calls.specs.Closing.{MayBeLeft};
ghost use Rattle.fl_crew_session.specs.Parts.{HearsNodes, NamesNodes, line_of, session_of};
ghost use Rattle.fl_crew_session.specs.Told.{replies_of, shown};

use crate::told::{Replies, Told};
use fl_aliases::alias::Alias;
use fl_aliases::roomy::RoomyAliases;
use fl_aliases::table::{Aliases, MOST_ALIASES};
use fl_calls::response::Response as Said;
use fl_cluster::response::Response;
use fl_crew_calls::crews::{Crews, STARVED};
use fl_crew_calls::runtime::CrewRuntime;
use fl_crew_lines::asking::respond_to;
use fl_crew_turns::held::{Batch, Held};
use fl_crew_turns::naming::settle_all;
use fl_jobs::job::Job;
use fl_labels::name::NodeNumber;
use fl_makers::maker::MakesKeepers;
use fl_script::line::Line;
use fl_script::reading::{Reading, read_line};
use fl_script::request::Request;
use fl_sink::sink::{Sink, WriteFault};
use fl_sink::writer::Writer;
use fl_system::reply::Reply;
use std::alloc::{AllocError, Global};
use std::marker::Model;
use std::mem::replace;
use std::sync::Wait;

// A job of a node, and the alias that is to stand for what it makes, if one is.
#[derive(Drop)]
struct Task {
    node: NodeNumber,
    job: Job,
    alias: Option<Alias>,
}

/// The crews of a script, the aliases of what its lines made, and the lines whose batch has not
/// ended. A line that waits is answered when its batch ends.
pub struct Session<R: Wait, M: MakesKeepers> {
    crews: Crews<R, M>,
    aliases: Aliases,
    // The words of a line in which aliases were replaced, in room that the next line has too.
    text: String,
    held: Held,
}

impl<R: Wait, M: MakesKeepers> Model for Session<R, M> {
    ghost use Rattle.fl_crew_calls.specs.Over.{CrewsOver, coded_crews};
    ghost use Rattle.fl_crew_turns.specs.Session.{CrewSession};
    ghost use Rattle.fl_crew_session.specs.Parts.{IsBetweenLines, coded_session};

    ghost Value = { CrewSession (CrewsOver M.K M) };

    ghost coded = { coded_session (coded_crews M.K.code M.code) };

    ghost view = { λ s. record { crews = s.crews; aliases = s.aliases; held = s.held } };

    ghost invariant = { λ s. IsBetweenLines s.aliases s.held };
}

impl<R: Wait + Drop, M: MakesKeepers + Drop> Drop for Session<R, M> {
    fn drop(self) {
        let Session {
            crews: _,
            aliases: _,
            text: _,
            held: _,
        } = self;
    }
}

// Has the crew of the batch's node do its jobs. Each of its aliases stands for what its line made
// then.
fn serve<R: CrewRuntime, M: MakesKeepers>(
    crews: &mut Crews<R, M>,
    alloc: Global,
    aliases: &mut RoomyAliases,
    batch: Batch,
) -> Replies
    requires some { batch.jobs.items ≢ [] }
    requires room { count_set batch.aliases.items ≤ aliases.old.room }
    requires few { length aliases.old.table + count_set batch.aliases.items ≤ 1024 }
    ensures { EndsBatch (crews_calls M.K.custody M.making)
        (session_of crews.old aliases.old.table (held_jobs batch)) (replies_of result)
        (session_of crews.new aliases.new.table none_held) }
{
    let Batch {
        node,
        jobs,
        aliases: names,
    } = batch;
    let count = jobs.len();
    match crews.do_jobs(alloc, node, jobs) {
        Ok(replies) => {
            settle_all(aliases, &names, &replies);
            Replies::Each(replies)
        }
        Err(fault) => Replies::All(count, fault),
    }
}

// Ends the batch that is held, if one is. Room for its aliases is made before, so that nothing can
// fail once its jobs are done.
fn end_held<R: CrewRuntime, M: MakesKeepers>(
    crews: &mut Crews<R, M>,
    alloc: Global,
    aliases: &mut Aliases,
    held: &mut Held,
) -> Replies
    requires { length aliases.old + count_set held.old.aliases ≤ 1024 }
    ensures ends { EndsBatch (crews_calls M.K.custody M.making)
        (session_of crews.old aliases.old held.old) (replies_of result)
        (session_of crews.new aliases.new held.new) }
    ensures none { held.new ≡ none_held }
    ensures few { length aliases.new ≤ 1024 }
{
    let held = replace(held, Held::new(alloc));
    if held.is_empty() {
        return Replies::none(alloc);
    }
    let count = held.count_aliases();
    let batch = held.into_batch();
    match replace(aliases, Aliases::new(alloc)).with_room(count) {
        Ok(mut roomy) => {
            let replies = serve(crews, alloc, &mut roomy, batch);
            *aliases = roomy.into_aliases();
            replies
        }
        Err(same) => {
            *aliases = same;
            Replies::All(batch.jobs.len(), STARVED)
        }
    }
}

impl<R: CrewRuntime, M: MakesKeepers> Session<R, M> {
    /// No alias and no line, before the first line. Takes no memory.
    pub fn new(alloc: Global, crews: Crews<R, M>) -> Self
        ensures { result ≡ begun_session crews }
    {
        Session {
            crews,
            aliases: Aliases::new(alloc),
            text: String::new(alloc),
            held: Held::new(alloc),
        }
    }

    /// Ends each crew, gives its keeper back to the maker, and gives that, as [`Crews::close`] has
    /// it. Lines whose batch has not ended are forgotten.
    pub fn close(self) -> M
        ensures { (number : ℕ) (k : Kept) → M.making.finds result number k
            → MayBeLeft M.K.custody M.making self.crews number k }
    {
        let Session {
            crews,
            aliases: _,
            text: _,
            held: _,
        } = self;
        crews.close()
    }

    /// Answers the line of this number, given without its end, or holds it: what the lines are
    /// replied whose batch ends with it is put into the sink, and then its own answer. The result
    /// is the greatest status of a line of which something is told, and 0 of none.
    ///
    /// At a fault a front of what waited and of that was written, and the line was answered.
    pub fn answer<W: Writer>(
        &mut self,
        alloc: Global,
        number: u64,
        line: &[u8],
        sink: &mut Sink,
        output: &mut W,
    ) -> Result<u8, WriteFault>
        ensures ok { IfOk result (λ status.
            AnswerPasses (CrewTurns (crews_calls M.K.custody M.making))
            number self.old line.now status self.new
            (W.contents output.old) (W.contents output.new) sink.old sink.new) }
        ensures err { OnErr result (
            AnswerCuts (CrewTurns (crews_calls M.K.custody M.making))
            number self.old line.now self.new
            (W.contents output.old) (W.contents output.new) sink.old) }
        ensures cause { OnErr result (W.has_failed output.new) }
    {
        let told = self.respond(alloc, line);
        told.write(number, &self.aliases, sink, output)
    }

    /// Ends the batch that is held, if one is: its jobs are done, and what its lines are replied is
    /// put into the sink, in the order of the lines. The result is the greatest status of one, and
    /// 0 of none.
    ///
    /// At a fault a front of what waited and of that was written, and the batch has ended.
    pub fn end_batch<W: Writer>(
        &mut self,
        alloc: Global,
        sink: &mut Sink,
        output: &mut W,
    ) -> Result<u8, WriteFault>
        ensures ok { IfOk result (λ status.
            BatchPasses (crews_calls M.K.custody M.making) self.old status self.new
            (W.contents output.old) (W.contents output.new) sink.old sink.new) }
        ensures err { OnErr result (
            BatchCuts (crews_calls M.K.custody M.making) self.old self.new
            (W.contents output.old) (W.contents output.new) sink.old) }
        ensures cause { OnErr result (W.has_failed output.new) }
    {
        let replies = self.end(alloc);
        replies.write(sink, output)
    }

    // Answers a line, or holds it.
    fn respond(&mut self, alloc: Global, line: &[u8]) -> Told
        ensures { CrewTurn (crews_calls M.K.custody M.making) self.old line.now
            (replies_of result.replies) (shown self.new.aliases result.own) self.new }
    {
        if self.held.is_named_in(line) {
            let replies = self.end(alloc);
            let heard = self.hear(alloc, line);
            let own = self.answer_now(alloc, heard);
            return Told { replies, own };
        }
        let heard = self.hear(alloc, line);
        match heard {
            Some(Reading::Means { line, alias }) => self.answer_line(alloc, line, alias),
            _ => {
                let replies = self.end(alloc);
                let own = self.answer_now(alloc, heard);
                Told { replies, own }
            }
        }
    }

    // Answers a line of the script, or holds it.
    fn answer_line(&mut self, alloc: Global, line: Line, alias: Option<Alias>) -> Told
        requires nodes { NamesNodes line }
        ensures { (bytes : List ℕ) → ¬ NamesHeld self.old.held bytes
            → IsReading self.old.aliases bytes (Means line alias)
            → CrewTurn (crews_calls M.K.custody M.making) self.old bytes
            (replies_of result.replies) (shown self.new.aliases result.own) self.new }
    {
        match line {
            Line::Node {
                node,
                request: Request::Job(job),
            } => self.take(alloc, Task { node, job, alias }),
            _ => {
                let replies = self.end(alloc);
                let own = self.answer_line_now(alloc, line, alias);
                Told { replies, own }
            }
        }
    }

    // What the line says where the aliases are set, or `None` where there is no memory to read it.
    fn hear(&mut self, alloc: Global, line: &[u8]) -> Option<Reading>
        ensures heard { IsHeard self.old.aliases line.now result }
        ensures nodes { HearsNodes result }
        ensures same { self.new ≡ self.old }
    {
        read_line(alloc, &self.aliases, line, &mut self.text).ok()
    }

    // Answers a line that asks for a job, or holds it.
    fn take(&mut self, alloc: Global, task: Task) -> Told
        requires nodes { NamesNodes (line_of task) }
        ensures { (bytes : List ℕ) → ¬ NamesHeld self.old.held bytes
            → IsReading self.old.aliases bytes (Means (line_of task) task.alias)
            → CrewTurn (crews_calls M.K.custody M.making) self.old bytes
            (replies_of result.replies) (shown self.new.aliases result.own) self.new }
    {
        if self.goes_on_with(&task) {
            return self.go_on(alloc, task);
        }
        let replies = self.end(alloc);
        let own = self.begin(alloc, task);
        Told { replies, own }
    }

    // Whether the batch that is held goes on with the job: it is of the same node, and has room for
    // the job's alias.
    fn goes_on_with(&self, task: &Task) -> bool
        ensures { IsTrue result ↔ GoesOn self.now task.now.node task.now.alias }
    {
        self.held.is_of(task.node) && self.has_room_for(&task.alias)
    }

    // Whether the alias, if there is one, can be set whatever the lines that wait set.
    fn has_room_for(&self, alias: &Option<Alias>) -> bool
        ensures { IsTrue result ↔ HasRoomFor self.now.aliases self.now.held alias.now }
    {
        alias.is_none() || self.aliases.len() + self.held.count_aliases() < MOST_ALIASES
    }

    // Has the batch that is held go on with the job. It ends behind it where it is full then.
    fn go_on(&mut self, alloc: Global, task: Task) -> Told
        requires { GoesOn self.old task.node task.alias }
        ensures { (bytes : List ℕ) → ¬ NamesHeld self.old.held bytes
            → IsReading self.old.aliases bytes (Means (line_of task) task.alias)
            → CrewTurn (crews_calls M.K.custody M.making) self.old bytes
            (replies_of result.replies) (shown self.new.aliases result.own) self.new }
    {
        let Task {
            node: _,
            job,
            alias,
        } = task;
        self.held.go_on(job, alias);
        if !self.held.is_full() {
            return Told {
                replies: Replies::none(alloc),
                own: Response::Silence,
            };
        }
        // The value is not whole here: a batch that is full can take no job more.
        let replies = end_held(&mut self.crews, alloc, &mut self.aliases, &mut self.held);
        Told {
            replies,
            own: Response::Silence,
        }
    }

    // Answers what was heard while no batch is held, or holds it.
    fn answer_now(&mut self, alloc: Global, heard: Option<Reading>) -> Response
        requires none { self.old.held ≡ none_held }
        requires nodes { HearsNodes heard }
        ensures { AnswersNow (crews_calls M.K.custody M.making) self.old heard
            (shown self.new.aliases result) self.new }
    {
        match heard {
            None => Response::starved(),
            Some(Reading::Quiet) => Response::Silence,
            Some(Reading::Bad) => Response::bad_line(),
            Some(Reading::Means { line, alias }) => self.answer_line_now(alloc, line, alias),
        }
    }

    // Answers a line of the script while no batch is held, or holds it.
    fn answer_line_now(&mut self, alloc: Global, line: Line, alias: Option<Alias>) -> Response
        requires none { self.old.held ≡ none_held }
        requires nodes { NamesNodes line }
        ensures { AnswersNow (crews_calls M.K.custody M.making) self.old (Some (Means line alias))
            (shown self.new.aliases result) self.new }
    {
        match line {
            Line::Node {
                node,
                request: Request::Job(job),
            } => self.begin(alloc, Task { node, job, alias }),
            Line::Aliases => Response::Aliases,
            _ => Response::Said(respond_to(&mut self.crews, alloc, line)),
        }
    }

    // Begins a batch with the job while none is held: its node is opened where it is not open. The
    // line is none of the script where it sets an alias and as many are set as may be.
    fn begin(&mut self, alloc: Global, task: Task) -> Response
        requires none { self.old.held ≡ none_held }
        requires nodes { NamesNodes (line_of task) }
        ensures { AnswersNow (crews_calls M.K.custody M.making) self.old
            (Some (Means (line_of task) task.alias)) (shown self.new.aliases result) self.new }
    {
        let Task { node, job, alias } = task;
        if !self.has_room_for(&alias) {
            return Response::bad_line();
        }
        if let Err(fault) = self.crews.open(alloc, node) {
            return Response::Said(Said::Reply(Reply::Refused(fault)));
        }
        match self.held.begin(node, job, alias) {
            Ok(()) => Response::Silence,
            Err(AllocError) => Response::starved(),
        }
    }

    // Ends the batch that is held, if one is.
    fn end(&mut self, alloc: Global) -> Replies
        ensures ends { EndsBatch (crews_calls M.K.custody M.making) self.old
            (replies_of result) self.new }
        ensures none { self.new.held ≡ none_held }
    {
        end_held(&mut self.crews, alloc, &mut self.aliases, &mut self.held)
    }
}
