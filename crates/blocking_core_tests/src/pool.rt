//! The worked rows of the pool.
mod bench;
mod clients;
mod growth;
mod limits;
mod marks;
mod stale;
mod step;
mod turns;
mod waiting;

#[test]
fn rows_are_shown(rt: HostRuntime) {
    for rows in [
        clients::ROWS,
        growth::ROWS,
        limits::ROWS,
        marks::ROWS,
        stale::ROWS,
        turns::ROWS,
        waiting::ROWS,
    ] {
        bench::play(&rt, rows);
    }
}
