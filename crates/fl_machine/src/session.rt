//! The session of one process of a machine.
ghost use Rattle.std.specs.Prelude.{◌≡◌, ◌≢◌, ◌<◌, Err, IfErr, IfOk, IsTrue, true};
ghost use Rattle.fl_machine_turns.specs.Over.{MachineTurns};
ghost use Rattle.fl_machine_turns.specs.Run.{IsStarted};
ghost use Rattle.fl_machine_turns.specs.Settings.{settings_of};
ghost use Rattle.fl_node.specs.Causes.{KeeperFails};
ghost use Rattle.fl_store.specs.Breaking.{IsLeftBroken};
ghost use Rattle.fl_store.specs.Keeping.{Follows};
ghost use Rattle.fl_system.specs.Openings.{IsOf, Opens};
ghost use Rattle.fl_machine.specs.laws.Silence.{stays_silent};

use crate::answers::write_response;
use crate::asking::respond_to_read;
use fl_labels::name::NodeNumber;
use fl_machine_lines::line::{MachineLine, read_machine_line};
use fl_node::node::Node;
use fl_replies::text::write_count;
use fl_seal::seal::Key;
use fl_sink::sink::{Sink, WriteFault};
use fl_sink::writer::Writer;
use fl_store::keeper::Keeper;
use fl_stream::responder::Responder;
use fl_system::answer::Fault;
use std::alloc::Global;
use std::marker::Model;

/// The node has one desk, at which all its lines look.
const DESKS: u8 = 1;

/// One process of a machine: its node, its keys, whether it guards orders, and how much was
/// admitted since it started, which is all that it keeps beside the node. A run gives it back.
pub struct Session<K: Keeper> {
    node: Node<K>,
    keys: Vec<Key>,
    guards: bool,
    // The guards' emissions too, and no further than the greatest `u64`.
    admitted: u64,
    over: bool,
}

impl<K: Keeper> Model for Session<K> {
    ghost use Rattle.fl_machine_turns.specs.Over.{SessionOver, coded_session_over};
    ghost use Rattle.fl_machine_turns.specs.Settings.{settings_of};
    ghost use Rattle.fl_node.specs.Desks.{IsDeskOf};

    ghost Value = { SessionOver K };

    ghost coded = { coded_session_over K.code };

    ghost view = { λ s. record {
      settings = settings_of s.node.node.number s.keys.items s.guards;
      node = s.node;
      admitted = s.admitted;
      over = s.over;
    } };

    ghost invariant = { λ s. IsDeskOf s.node.node 1 };
}

impl<K: Keeper + Drop> Drop for Session<K> {
    fn drop(self) {
        let Session {
            node: _,
            keys: _,
            guards: _,
            admitted: _,
            over: _,
        } = self;
    }
}

impl<K: Keeper> Session<K> {
    /// Opens the node of this number over its keeper, as [`Node::open`] does, which says why not,
    /// and gives the keeper back then. The first key seals what is sent, and each opens what comes;
    /// without one nothing is sealed. Where it guards orders, each asks first what an emission of
    /// nothing by its process asks.
    pub fn open(
        alloc: Global,
        keeper: K,
        number: NodeNumber,
        keys: Vec<Key>,
        guards: bool,
    ) -> Result<Session<K>, (Fault, K)>
        requires { 0 < number }
        ensures settings { IfOk result (λ session.
            session.settings ≡ settings_of number keys.items guards) }
        ensures started { IfOk result
            (IsStarted K.custody (K.custody.may_hold keeper)) }
        ensures honest { IfOk result (λ session. K.custody.is_honest session.node.keeper
            → K.custody.is_honest keeper) }
        ensures cause { let bad = K.custody.has_bad_row keeper in IfErr result (λ e.
            KeeperFails (IsLeftBroken K.custody keeper e.1) (K.custody.is_honest e.1) bad e.0) }
        ensures broken { IfErr result (λ e. IsTrue (K.custody.is_broken keeper)
            → K.custody.number keeper ≡ number
            → e.0 ≡ Fault.KeeperFailed) }
        ensures other { IfErr result (λ e. K.custody.number keeper ≢ number
            → e.0 ≡ Fault.WrongNode) }
        ensures sound { IfOk result (λ session. ¬ IsTrue (K.custody.is_broken keeper)) }
        ensures whole { IfOk result (λ session. K.custody.is_honest session.node.keeper
            → ¬ K.custody.has_bad_row keeper) }
        ensures err { IfErr result (λ e. K.custody.is_honest e.1 → K.custody.is_honest keeper
            × Follows (λ k k'. Opens 1 (IsOf number) k (Err e.0) k')
            (K.custody.may_hold keeper) (K.custody.may_hold e.1)) }
    {
        match Node::open(alloc, keeper, number, DESKS) {
            Ok(node) => Ok(Session {
                node,
                keys,
                guards,
                admitted: 0,
                over: false,
            }),
            Err(refused) => Err(refused),
        }
    }

    /// Its node.
    pub fn node(&self) -> &Node<K>
        ensures { result.now ≡ self.now.node }
    {
        &self.node
    }

    /// The keeper of its node, without the rest: what is on its way and each process are forgotten.
    pub fn into_keeper(self) -> K
        ensures { result ≡ self.node.keeper }
    {
        let Session {
            node,
            keys: _,
            guards: _,
            admitted: _,
            over: _,
        } = self;
        node.into_keeper()
    }
}

impl<K: Keeper> Responder for Session<K> {
    ghost turns = { MachineTurns K.custody };

    ghost over = { λ s. s.over ≡ true };

    fn answer<W: Writer>(
        &mut self,
        alloc: Global,
        number: u64,
        line: &[u8],
        sink: &mut Sink,
        output: &mut W,
    ) -> Result<u8, WriteFault> {
        let read = read_machine_line(alloc, self.node.number(), line);
        if let Ok(MachineLine::Bad) = &read {
            write_count(b"refused F19 ", number, sink, output)?;
            return Ok(1);
        }
        let (response, more) = respond_to_read(
            alloc,
            &mut self.node,
            &self.keys,
            self.guards,
            self.admitted,
            read,
        );
        self.admitted = self.admitted.saturating_add(more);
        let status = response.status();
        self.over = status == 3;
        write_response(&self.node, number, &response, sink, output)?;
        Ok(status)
    }

    // Once its keeper failed.
    fn is_over(&self) -> bool {
        self.over
    }

    ghost silent = { stays_silent K.custody };
}
