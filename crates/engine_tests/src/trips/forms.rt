//! What trips by sessions come to, over relations by chance.
use crate::chance::Chance;
use crate::trips::relations::{
    as_columns, as_tables, as_values, has_clash, has_no_column, has_no_label, said_by,
};
use crate::trips::{Outcome, Trip, comes_to};
use std::alloc::Global;
use std::test::Fail;

const BY_TABLES: Trip = Trip {
    there: "create view M::N(k, v) as select T.k, T.v from d::r T, T.n N",
    back: "create view B::r(k, n, v) as select T.k, N, T.v from M -> N, M::N T",
    wanted: "create view B::r(k, n, v) as select T.k, T.n, T.v from d::r T",
};

const BY_COLUMNS: Trip = Trip {
    there: "create view M::r(k, N) as select T.k, T.v from d::r T, T.n N",
    back: "create view B::r(k, n, v) as select T.k, N, T.N from M::r -> N, M::r T where N <> 'k' and T.N <> ''",
    wanted: "create view B::r(k, n, v) as select T.k, T.n, T.v from d::r T where T.v <> ''",
};

const BY_VALUES: Trip = Trip {
    there: "create view M::r(k, n, v) as select T.k, N, T.N from d::r -> N, d::r T where N <> 'k' and T.N <> ''",
    back: "create view B::r(k, N) as select T.k, T.v from M::r T, T.n N",
    wanted: "create view B::r(k, N) as select T.k, T.N from d::r -> N, d::r T where N <> 'k' and T.N <> ''",
};

const COLUMNS_TO_TABLES: Trip = Trip {
    there: "create view M::r(k, n, v) as select T.k, N, T.N from d::r -> N, d::r T where N <> 'k' and T.N <> ''",
    back: "create view B::N(k, v) as select T.k, T.v from M::r T, T.n N",
    wanted: "create view B::N(k, v) as select T.k, T.N from d::r -> N, d::r T where N <> 'k' and T.N <> ''",
};

const TABLES_TO_COLUMNS: Trip = Trip {
    there: "create view M::r(k, n, v) as select T.k, N, T.v from d -> N, d::N T",
    back: "create view B::r(k, N) as select T.k, T.v from M::r T, T.n N",
    wanted: "create view B::r(k, N) as select T.k, T.v from d -> N, d::N T",
};

// How many relations each trip is made over, and how many rows each of them has fewer than.
const RELATIONS: u32 = 40;

const ROWS: usize = 10;

fn expected(refused: bool) -> Outcome {
    if refused {
        Outcome::Refused
    } else {
        Outcome::Kept
    }
}

// What comes of the trips over the relations of a seed, each beside what is to come.
fn outcomes(alloc: Global, seed: u32) -> Result<[(Outcome, Outcome); 5], Fail> {
    let mut chance = Chance::of(seed);
    let count = chance.below(ROWS);
    let names = chance.below(6) + 1;
    let said = said_by(alloc, &mut chance, count, names)?;
    let few = said_by(alloc, &mut chance, count, 3)?;
    let values = as_values(alloc, &said)?;
    let columns = as_columns(alloc, &few)?;
    let tables = as_tables(alloc, &few)?;
    Ok([
        (
            comes_to(alloc, &values, &BY_TABLES)?,
            expected(has_no_label(&said)),
        ),
        (
            comes_to(alloc, &values, &BY_COLUMNS)?,
            expected(has_no_column(&said) || has_clash(&said)),
        ),
        (
            comes_to(alloc, &columns, &BY_VALUES)?,
            expected(has_clash(&few)),
        ),
        (
            comes_to(alloc, &columns, &COLUMNS_TO_TABLES)?,
            Outcome::Kept,
        ),
        (
            comes_to(alloc, &tables, &TABLES_TO_COLUMNS)?,
            expected(has_clash(&few)),
        ),
    ])
}

#[test]
fn trips_keep_what_they_promise(rt: HostRuntime) -> Result<(), Fail> {
    let mut kept = false;
    let mut refused = false;
    for seed in 0..RELATIONS {
        let all = outcomes(rt.alloc(), seed)?;
        for (place, pair) in all.iter().enumerate() {
            assert_eq!(rt; pair.0, pair.1, "trip {place} over the relations of {seed}");
            kept |= pair.0 == Outcome::Kept;
            refused |= pair.0 == Outcome::Refused;
        }
    }
    assert!(rt; kept && refused);
    Ok(())
}
