//! Laws of what is safe, for anyone who has capabilities in effect.
ghost use Rattle.std.specs.Prelude.{◌↔◌};
ghost use Rattle.fl_labels.specs.Caps.{Dual};
ghost use Rattle.fl_labels.specs.Found.{Within};
ghost use Rattle.fl_rules.specs.declared.endpoint.Mode.{Mode};
ghost use Rattle.fl_rules.specs.declared.labels.Labels.{Labels};
ghost use Rattle.fl_rules.specs.Endpoint.{Crosses, SafeEndpoint};
ghost use Rattle.fl_rules.specs.Pair.{End, SafePair};
ghost use Rattle.fl_rules.specs.Message.{SafeMessage};

use crate::has::Has;

/// An endpoint is safe exactly where each tag that it crosses may be both added and removed.
pub fn law_endpoint<H: Has>()
    ensures { (h : H) (mode : Mode) (process endpoint : Labels)
        → SafeEndpoint (H.effective h) mode process endpoint
        ↔ Within (Crosses mode process endpoint) (Dual (H.effective h)) }
{}

/// A message from a safe endpoint of p to a safe endpoint of q, where the pair is safe, is safe
/// from p to q, also for who has more in effect than the endpoints were safe by.
pub fn law_message<G: Has, H: Has>()
    ensures { (g more_g : G) (h more_h : H) (p q : Labels) (e f : End)
        → Within (G.effective g) (G.effective more_g) → Within (H.effective h) (H.effective more_h)
        → SafeEndpoint (G.effective g) e.mode p e.labels
        → SafeEndpoint (H.effective h) f.mode q f.labels → SafePair e f
        → SafeMessage (G.effective more_g) p (H.effective more_h) q }
{}
