//! The definitions and the sources of the three offices, over which most runs are.
use crate::place::File;

pub const A_TO_B: File = (
    "defs",
    "AtoB.ssql",
    "create view AtoB::salInfo(category, D) as select A.category, A.salFloor from univ-A::salInfo A, A.dept D",
);

pub const A_TO_C: File = (
    "defs",
    "AtoC.ssql",
    "create view AtoC::D(category, salFloor) as select A.category, A.salFloor from univ-A::salInfo A, A.dept D",
);

pub const B_TO_A: File = (
    "defs",
    "BtoA.ssql",
    "create view BtoA::salInfo(category, dept, salFloor) as select T.category, D, T.D from univ-B::salInfo -> D, univ-B::salInfo T where D <> 'category'",
);

pub const C_TO_A: File = (
    "defs",
    "CtoA.ssql",
    "create view CtoA::salInfo(category, dept, salFloor) as select T.category, R, T.salFloor from univ-C -> R, univ-C::R T",
);

// The departments, which are columns of the view of A_TO_B, as values again.
pub const BACK: File = (
    "defs",
    "Back.ssql",
    "create view Back::salInfo(category, dept, salFloor) as select T.category, D, T.D from AtoB::salInfo -> D, AtoB::salInfo T where D <> 'category'",
);

pub const ALL: File = (
    "defs",
    "All.ssql",
    "create view All::t(db, category) as select X, T.category from -> X, X::salInfo T",
);

pub const A_NAMES: File = (
    "defs",
    "Q.ssql",
    "create view Q::names(category) as select A.category from univ-A::salInfo A",
);

pub const SELF_JOIN: File = (
    "defs",
    "J.ssql",
    "create view J::p(x, y) as select T.a, U.b from d::r T, d::r U where T.b = U.a",
);

pub const A: File = (
    "sources/univ-A",
    "salInfo.csv",
    "category,dept,salFloor\nProf,cs,72000\nProf,math,65000\nAssoc,cs,60000\n",
);

pub const B: File = (
    "sources/univ-B",
    "salInfo.csv",
    "category,cs,math\nAssoc,60000,\nProf,72000,65000\n",
);

pub const C_CS: File = (
    "sources/univ-C",
    "cs.csv",
    "category,salFloor\nAssoc,60000\nProf,72000\n",
);

pub const C_MATH: File = (
    "sources/univ-C",
    "math.csv",
    "category,salFloor\nProf,65000\n",
);
