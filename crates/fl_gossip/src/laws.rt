//! Laws of what is answered to a window.
ghost use Rattle.std.specs.Prelude.{◌≡◌, ◌*◌, ℕ, List, take};
ghost use Rattle.fl_ops.specs.declared.op.Op.{Op};
ghost use Rattle.fl_wire.specs.declared.packet.Packet.{Packet};
ghost use Rattle.fl_gossip.specs.Replying.{AreInDeltas};

/// Operations are in deltas in one way. So the deltas of the first 64 operations for each of so
/// many packets are the first packets of all of them, and what [`reply_front`] answers is a front
/// of what [`reply`] does.
///
/// [`reply`]: crate::replying::reply
/// [`reply_front`]: crate::replying::reply_front
pub fn law_front()
    ensures one { (ops : List Op) (packets others : List Packet)
        → AreInDeltas ops packets → AreInDeltas ops others → packets ≡ others }
    ensures front { (most : ℕ) (ops : List Op) (packets front : List Packet)
        → AreInDeltas ops packets → AreInDeltas (take (64 * most) ops) front
        → front ≡ take most packets }
{}
