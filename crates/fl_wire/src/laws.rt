//! Laws of packets and their bytes.
ghost use Rattle.std.specs.Prelude.{◌≡◌, ℕ, List, None};
ghost use Rattle.fl_wire.specs.declared.packet.Packet.{Packet};
ghost use Rattle.fl_ops.specs.declared.format.Format.{Format};
ghost use Rattle.fl_ops.specs.declared.format.Format.TheVariants.{Two};
ghost use Rattle.fl_wire.specs.PacketBytes.{packet_bytes};
ghost use Rattle.fl_wire.specs.PacketFits.{HasPacket};
ghost use Rattle.fl_wire.specs.PacketGrammar.{packet_fault};
ghost use Rattle.fl_wire.specs.PacketSpelled.{AreBytes, SpellPacket};

/// What a packet spells has no fault, in each format that has it; bytes without a fault spell a
/// packet; and bytes spell one packet at most, in one format. So bytes spell a packet exactly where
/// they have no fault.
pub fn law_one_packet()
    ensures whole { (f : Format) (packet : Packet) → HasPacket f packet
        → packet_fault (packet_bytes f packet) ≡ None }
    ensures spelled { (bytes : List ℕ) → AreBytes bytes → packet_fault bytes ≡ None
        → SpellPacket bytes }
    ensures one { (f g : Format) (a b : Packet) → HasPacket f a → HasPacket g b
        → packet_bytes f a ≡ packet_bytes g b → (f ≡ g) × (a ≡ b) }
    ensures written { (packet : Packet) → HasPacket Two packet }
{}
