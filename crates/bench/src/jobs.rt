// What is measured.

// The tickets of a job.
#[derive(Clone, Copy)]
pub(crate) enum Kind {
    // eight that are made at random, of so many bytes each
    Random(usize),
    // neg over 600 both, each in the first argument of the one before
    LeftComb,
    // the same with each in the second argument
    RightComb,
    // 600 a over 600 b over e
    Letters,
    // ten twice over e
    Doubling,
}

// Tickets of a kind under a sheet, to be reduced so many times.
#[derive(Clone, Copy)]
pub(crate) struct Job {
    pub caption: &'static str,
    pub sheet: &'static str,
    pub kind: Kind,
    pub rounds: u32,
}

// What is negated, and what stands together.
const HOUSE: &str =
    "nil neg both\n0 1 2\n1 1 3\n- 2 2\n- - 1\n- - -\nrules\nneg(neg(A))=A\nneg(nil)=nil\nneg(both(A,B))=both(neg(A),neg(B))\nboth(nil,A)=A\nboth(A,nil)=A\nboth(both(A,B),C)=both(A,both(B,C))\n";

// The operators of the house sheet as they are numbered.
pub(crate) const NEG: u8 = 1;

pub(crate) const BOTH: u8 = 2;

// Letters change places.
const LETTERS: &str = "a b e\n1 1 0\n0 0 0\n1 1 -\n- - -\n- - -\nrules\na(b(A))=b(a(A))\n";

// What is doubled is copied.
const DOUBLING: &str =
    "twice both e\n1 2 0\n0 0 0\n1 1 -\n- 1 -\n- - -\nrules\ntwice(A)=both(A,A)\n";

pub(crate) const JOBS: [Job; 8] = [
    Job {
        caption: "house sheet, 8 tickets of 500 bytes",
        sheet: HOUSE,
        kind: Kind::Random(500),
        rounds: 1000,
    },
    Job {
        caption: "house sheet, 8 tickets of 1000 bytes",
        sheet: HOUSE,
        kind: Kind::Random(1000),
        rounds: 500,
    },
    Job {
        caption: "house sheet, 8 tickets of 2000 bytes",
        sheet: HOUSE,
        kind: Kind::Random(2000),
        rounds: 250,
    },
    Job {
        caption: "house sheet, 8 tickets of 4000 bytes",
        sheet: HOUSE,
        kind: Kind::Random(4000),
        rounds: 125,
    },
    Job {
        caption: "house sheet, comb of 600 to the left",
        sheet: HOUSE,
        kind: Kind::LeftComb,
        rounds: 5,
    },
    Job {
        caption: "house sheet, comb of 600 to the right",
        sheet: HOUSE,
        kind: Kind::RightComb,
        rounds: 500,
    },
    Job {
        caption: "600 letters a over 600 b",
        sheet: LETTERS,
        kind: Kind::Letters,
        rounds: 3,
    },
    Job {
        caption: "doubling ten times",
        sheet: DOUBLING,
        kind: Kind::Doubling,
        rounds: 500,
    },
];
