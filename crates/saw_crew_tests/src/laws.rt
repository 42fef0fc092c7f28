//! The law of runs of batches is called once.

use saw_station::NoStation;

#[test]
fn the_law_of_runs(_rt: HostRuntime) {
    saw_crew::told_is_run_serially::<NoStation>();
}
