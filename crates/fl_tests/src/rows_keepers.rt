//! Rows of keepers that are not made, or that break.
use crate::rows::Row;

/// A node is not open where no keeper of it is made. The next line that asks something of it tries
/// again, and no other line does.
pub const UNMADE_KEEPERS: Row<'static> = Row {
    script: b"nonsense\n1 proc as $a\n1 deliver 1\n1 begin deliver 1\n1 proc as $a\naliases\n\
audit\n1 text\n\
1 proc as $b\n2 tell\n2 tell\n1 deliver 1\naliases\n",
    output: b"refused F19 1\nrefused F15\nrefused F19 3\nrefused F19 4\nrefused F20\nadmitted 0\n\
refused F14\np1.1.1\n\
refused F15\nsent 1\nsent none\n$b p1.1.1\n",
    status: 3,
};

/// A keeper that failed outweighs a bad line, whichever comes first.
pub const KEEPER_FAILS_BEFORE_A_BAD_LINE: Row<'static> = Row {
    script: b"1 proc\nnonsense\n1 proc\n",
    output: b"refused F15\nrefused F19 2\np1.1.1\n",
    status: 3,
};

/// Each line of a node tells why there is no keeper. These reasons leave the status. A union opens
/// its first node first.
pub const OPENINGS_ARE_REFUSED: Row<'static> = Row {
    script: b"1 begin group p1.1.1\n1 save\n1 publish\n1 cancel\n1 restart kept\n1 check f1\n\
1 check none\nunion 1 2\n\
union 1 2\n2 proc\n1 proc\nunion 1 2\n",
    output: b"refused F20\nrefused F20\nrefused F14\nrefused F14\nrefused F20\nrefused F20\n\
refused F14\nrefused F20\n\
refused F14\np2.1.1\np1.1.1\n",
    status: 0,
};

/// A keeper of another node is not taken, whenever it is tried.
pub const KEEPERS_OF_NODE_7: Row<'static> = Row {
    script: b"1 proc\n1 restart\n7 proc\n1 proc\nunion 7 1\n7 group p7.1.1\n1 deliver 1\n7 tell\n\
1 deliver 1\n\
7 open p7.1.1 w {} {}\n7 send p7.1.1 e1 p1.1.1 e1 {} none\n1 deliver 2\n7 deliver 2\n",
    output: b"refused F20\nrefused F20\np7.1.1\nrefused F20\nrefused F20\nok 7.1\nrefused F19 7\n\
sent 1\nrefused F20\n\
ok e1\nsent 2\nrefused F20\ndropped F1 p1.1.1\n",
    status: 1,
};

/// A node whose keeper broke is stopped, and a restart over that keeper stops it again.
pub const KEEPER_BREAKS_AT_FIRST_SAVE: Row<'static> = Row {
    script: b"1 proc\n1 tag p1.1.1 export\n1 proc\n1 text\n1 restart\n",
    output: b"p1.1.1\nrefused F15\nrefused F21\nrefused F21\nrefused F15\n",
    status: 3,
};

/// What a stopped node is asked, and what stops one: saving an order, what came, or what a restart
/// is to keep.
pub const STOPPED_NODES: Row<'static> = Row {
    script: b"1 proc as $a\n1 open $a r {} {}\n2 proc as $b\n2 open $b w {} {}\n\
2 send $b e1 $a e1 {} 00\n2 tell\n\
1 tag $a export as $t\naliases\n1 begin group $a\n1 save\n1 publish\n1 cancel\n1 tell\n1 text\n\
1 check f1\n\
1 check f203010201000000010000000101\n1 deliver 1\n1 deliver 2\n1 take $a\n1 member +1.1 +1.1\n\
union 1 2\nunion 2 1\n\
1 restart kept\n1 proc\n2 begin group $b\n2 save\n2 cancel\n3 proc\n3 begin group p3.1.1\n\
3 restart kept\n3 proc\n\
5 proc\n5 group p5.1.1\n5 deliver 2\n4 deliver 3\n4 text\n1 deliver 3\n5 text\naudit\n",
    output: b"p1.1.1\nok e1\np2.1.1\nok e1\nsent 1\nsent 2\nrefused F15\n$a p1.1.1\n$b p2.1.1\n\
refused F21\n\
refused F21\nrefused F21\nrefused F21\nrefused F21\nrefused F21\nrefused F18 1\nrefused F21\n\
dropped F21\nrefused F21\n\
refused F21\nrefused F21\nrefused F21\nrefused F21\nrefused F15\nrefused F21\nbegun 2.1\n\
refused F15\nrefused F21\n\
p3.1.1\nbegun 3.1\nrefused F15\nrefused F21\np5.1.1\nok 5.1\nsent 3\nrefused F15\nrefused F21\n\
refused F21\n5.1 group\n\
admitted 3\n",
    status: 3,
};

/// A node of the greatest boot runs, and is stopped by a restart, which cannot raise it.
pub const LAST_BOOT: Row<'static> = Row {
    script: b"1 proc\n1 group p1.4294967295.1\n1 restart\n1 text\n1 restart kept\n2 restart\n\
2 proc\n",
    output: b"p1.4294967295.1\nok 1.1\nrefused F12\nrefused F21\nrefused F12\nrefused F12\n\
refused F21\n",
    status: 0,
};

/// A node whose boots are spent is not opened.
pub const BOOTS_ARE_SPENT: Row<'static> = Row {
    script: b"1 proc\n1 restart\n1 text\nunion 1 2\n",
    output: b"refused F12\nrefused F12\nrefused F12\nrefused F12\n",
    status: 0,
};
