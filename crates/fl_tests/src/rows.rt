//! Scripts, and what is to be written for them: those that are run in pieces, and over streams that
//! fail. Between them they have lines of most kinds.

/// A script, its output, and its status.
#[derive(Clone, Copy)]
pub struct Row<'a> {
    pub script: &'a [u8],
    pub output: &'a [u8],
    pub status: u8,
}

/// Tags of each policy, and who may add and remove them.
pub const READ_AND_INTEGRITY_TAGS: Row<'static> = Row {
    script: b"1 proc\n1 tag p1.1.1 export\n1 label p1.1.1 S {1.1}\n\
1 proc\n1 label p1.1.2 S {1.1}\n1 label p1.1.2 S {}\n1 emit p1.1.2 6869\n1 emit p1.1.1 6869\n\
1 tag p1.1.1 read\n1 tag p1.1.1 integrity\n1 label p1.1.2 S {1.1,1.2}\n\
1 label p1.1.2 I {1.3}\n1 ask p1.1.2 -1.3\n",
    output: b"p1.1.1\nok 1.1\nok\n\
p1.1.2\nok\nrefused F3 -1.1\nrefused F8 1.1\nout 6869\n\
ok 1.2\nok 1.3\nrefused F3 +1.2\n\
refused F3 +1.3\nyes\n",
    status: 0,
};

/// Returns, comments, empty lines, spaces, and a last line that does not end.
pub const FORMS_OF_LINES: Row<'static> = Row {
    script: b"# a comment\n\n   # and one more\n  1   proc  \r\n1 tag p1.1.1 integrity\n\
nonsense\n\x80\n1 proc\r\r\n1 ask p1.1.1 +1.1\n1 ask p1.1.1 ^1.1\n1 text",
    output: b"p1.1.1\nok 1.1\nrefused F19 6\nrefused F19 7\nrefused F19 8\nyes\nnot-yet\n\
1.1 tag integrity\n",
    status: 1,
};

/// A return that ends the last line belongs to its last word.
pub const LAST_RETURN_STAYS: Row<'static> = Row {
    script: b"1 proc\r\n1 proc\r",
    output: b"p1.1.1\nrefused F19 2\n",
    status: 1,
};

/// What is made is called by aliases; a child has what it was born with, and no more.
pub const ALIASES_AND_BIRTHS: Row<'static> = Row {
    script: b"1 proc as $a\n1 tag $a read as $t\n1 spawn $a {+$t}\n1 ask p1.1.2 +$t\n\
1 ask p1.1.2 -$t\n\
1 spawn p1.1.2 {-$t}\n1 ask $b +1.1\naliases\n",
    output: b"p1.1.1\nok 1.1\np1.1.2\nyes\nnot-yet\n\
refused F3 -1.1\nrefused F19 7\n$a p1.1.1\n$t 1.1\n",
    status: 1,
};

/// A message carries the labels that its endpoint has when it is sent. A packet that was not sent
/// is no line.
pub const TUNED_ENDPOINT_SENDS: Row<'static> = Row {
    script: b"1 proc\n1 tag p1.1.1 export\n1 label p1.1.1 S {1.1}\n1 open p1.1.1 w {1.1} {}\n\
2 proc\n2 open p2.1.1 r {} {}\n\
1 send p1.1.1 e1 p2.1.1 e1 {} 6869\n2 deliver 1\n2 take p2.1.1\n1 tune p1.1.1 e1 {} {}\n\
1 send p1.1.1 e1 p2.1.1 e1 {} none\n2 deliver 2\n2 take p2.1.1\n2 close p2.1.1 e1\n2 deliver 2\n\
2 deliver 9\n",
    output: b"p1.1.1\nok 1.1\nok\nok e1\np2.1.1\nok e1\nsent 1\ndropped F8 1.1\nempty\nok\n\
sent 2\narrived p2.1.1\n\
message p1.1.1 {} none\nok\ndropped F2 e1\nrefused F19 16\n",
    status: 1,
};

/// What a packet brings is saved by one line, and published by another.
pub const RECEIVED_BATCH_IN_STEPS: Row<'static> = Row {
    script: b"1 proc\n1 tag p1.1.1 export\n1 label p1.1.1 S {1.1}\n2 tell\n1 deliver 1\n\
2 begin deliver 2\n\
2 check f10301010100010000000101\n2 save\n2 check f203010201000000010000000101\n2 text\n\
2 publish\n2 text\n",
    output: b"p1.1.1\nok 1.1\nok\nsent 1\nsent 2\nbegun 1\nnew 1\nok\nnew 0\ntook 1\n\
1.1 tag export\n",
    status: 0,
};
