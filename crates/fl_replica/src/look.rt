//! One look of a desk.
ghost use Rattle.std.specs.Prelude.{◌≡◌, Some};
ghost use Rattle.left_right.specs.Sides.{view as known};
ghost use Rattle.fl_labels.specs.Found.{Within};
ghost use Rattle.fl_labels.specs.SetBy.{In};
ghost use Rattle.fl_ops.specs.Registry.{Listed};
ghost use Rattle.fl_replica.specs.parts.Shown.{board_of};

use crate::desk::Desk;
use crate::rule::BoardReading;
use crate::told::Told;
use fl_cache::yes::YesCache;
use fl_labels::cap::Cap;
use fl_labels::cap_set::CapSet;
use fl_labels::name::Name;
use fl_ops::digest::Digest;
use fl_ops::view::View;
use std::marker::Model;

/// One beginning of the published list, the same as long as the look lasts, as for one job.
///
/// It is a [`View`], of which no question waits, fails or takes memory that it cannot do without.
/// Contracts see the board and the list. The press may publish once meanwhile, and then waits for
/// the look to end: [`Look::done`] ends it, and nothing else does.
pub struct Look {
    reading: BoardReading,
    told: Told,
    cache: YesCache,
}

impl Model for Look {
    ghost use Rattle.std.specs.Prelude.{◌≡◌, Some};
    ghost use Rattle.left_right.specs.Sides.{view as known};
    ghost use Rattle.fl_labels.specs.Found.{Within};
    ghost use Rattle.fl_labels.specs.SetBy.{In};
    ghost use Rattle.fl_ops.specs.Registry.{Listed};
    ghost use Rattle.fl_replica.specs.Boards.{Front};
    ghost use Rattle.fl_replica.specs.parts.Shown.{board_of};

    ghost Value = { Front };

    ghost view = { λ l. l.told };

    ghost invariant = { λ l. (board_of (known l.reading.place) ≡ Some l.told.board)
        × (l.reading.part.value.log.items ≡ l.told.list)
        × Within (In l.cache) (Listed l.told.list) };
}

impl Look {
    // A look at this list.
    pub(crate) fn over(reading: BoardReading, told: Told, cache: YesCache) -> Look
        requires board { board_of (known reading.place) ≡ Some told.board }
        requires list { reading.part.value.log.items ≡ told.list }
        requires cache { Within (In cache) (Listed told.list) }
        ensures { result ≡ told }
    {
        Look {
            reading,
            told,
            cache,
        }
    }

    /// Ends the look. The desk, which comes back, saw this list.
    pub fn done(self) -> Desk
        ensures { result ≡ self }
    {
        let Look {
            reading,
            told,
            cache,
        } = self;
        Desk::after(reading.leave(), told, cache)
    }
}

impl View for Look {
    ghost list = { λ l. l.list };

    fn seen(&self) -> u64 {
        self.told.count()
    }

    fn effective(&mut self, owned: &CapSet, cap: Cap) -> bool {
        self.reading.get().index.effective(owned, cap)
    }

    fn reaches(&mut self, root: Cap, cap: Cap) -> bool {
        let Look {
            reading,
            told: _,
            cache,
        } = self;
        cache.ask(&reading.get().index, root, cap)
    }

    fn login(&mut self, name: Name) -> Option<(Cap, Digest)> {
        self.reading.get().index.login(name)
    }
}
