//! A range of names, and which of them there are.
ghost use Rattle.std.specs.Prelude.{◌≡◌, ◌≤◌, true, length};
ghost use Rattle.fl_opset.specs.Rank.{name_rank};
ghost use Rattle.fl_opset.specs.Spans.{fit};

use crate::span::Span;
use fl_labels::name::Name;
use std::marker::Model;

/// How many spans a window has at most.
pub const MOST_SPANS: usize = 512;

/// Spans in a row. Contracts see their list alone.
#[derive(Debug, Drop)]
pub struct Spans {
    spans: Vec<Span>,
}

impl Model for Spans {
    ghost use Rattle.std.specs.Prelude.{List};
    ghost use Rattle.fl_opset.specs.declared.span.Span.{Span};
    ghost use Rattle.fl_opset.specs.SpanCode.{coded_span};
    ghost use Rattle.std.specs.Coded.{coded_list};

    ghost Value = { List Span };

    ghost coded = { coded_list coded_span };

    ghost view = { λ a. a.spans.items };
}

impl Spans {
    /// These spans, which are not copied.
    pub fn from_vec(spans: Vec<Span>) -> Self
        ensures { result ≡ spans.items }
    {
        Spans { spans }
    }

    /// The spans.
    pub fn as_slice(&self) -> &[Span]
        ensures { result.now ≡ self.now }
    {
        &self.spans
    }
}

impl PartialEq for Spans {
    ghost use Rattle.std.specs.Cmp.{partial_equiv_from_equiv};
    ghost use Rattle.std.specs.Cmp.Lexicographic.{pointwise, lists_equiv};
    ghost use Rattle.fl_opset.specs.SpanCode.{span_eq, span_equivalence};

    ghost eq = { λ a b. pointwise span_eq a b };

    ghost laws = { partial_equiv_from_equiv (lists_equiv span_equivalence) };

    fn eq(&self, other: &Self) -> bool {
        self.as_slice() == other.as_slice()
    }
}

impl Eq for Spans {
    ghost use Rattle.std.specs.Cmp.Lexicographic.{lists_equiv};
    ghost use Rattle.fl_opset.specs.SpanCode.{span_equivalence};

    ghost laws = { lists_equiv span_equivalence };
}

/// A window, which is the names from one to another, and spans in it: rising, and between two of
/// them a name at least that is in neither.
#[derive(Debug, Drop, PartialEq, Eq)]
pub struct Intervals {
    pub from: Name,
    pub to: Name,
    /// At most 512.
    pub spans: Spans,
    pub ghost ordered: { name_rank from ≤ name_rank to },
    pub ghost few: { length spans ≤ 512 },
    pub ghost fitting: { fit (name_rank from) (name_rank to) spans ≡ true },
}
