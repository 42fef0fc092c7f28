//! Each law is called once.

use saw_node::{OneByte, Sha512Half};
use saw_station::NoStation;

#[test]
fn laws_of_bytes_and_addresses(_rt: HostRuntime) {
    saw_faults::rise_is_kept();
    saw_faults::rise_is_seen();
    saw_io::framed_is_read();
    saw_io::cuts_do_not_show();
    saw_wire::one_spelling();
    saw_wire::written_is_spelled();
    saw_wire::written_is_read();
    saw_cbor::one_spelling();
    saw_cbor::written_is_spelled();
    saw_cbor::written_is_read();
    saw_address::address_is_text();
    saw_address::covers_means();
    saw_address::overlaps_means();
    saw_address::read_after_change();
    saw_address::same_everywhere();
    saw_address::text_is_one();
}

#[test]
fn laws_of_messages_and_roots(_rt: HostRuntime) {
    saw_messages::transactions_are_read_back();
    saw_messages::batches_are_read_back();
    saw_messages::blocks_are_read_back();
    saw_messages::receipts_are_read_back();
    saw_events::changes_are_read_back();
    saw_events::last_changes_show();
    saw_node::encoding_is_one();
    saw_node::empty_root_is();
    saw_node::same_root::<Sha512Half>();
    saw_node::same_root::<OneByte>();
    saw_node::order_does_not_show::<Sha512Half>();
    saw_node::order_does_not_show::<OneByte>();
    saw_proofs::checked_entries_are::<Sha512Half>();
    saw_proofs::told_proofs_are_good::<Sha512Half>();
}

#[test]
fn laws_of_transactions_and_families(_rt: HostRuntime) {
    saw_context::over_shows();
    saw_context::outcome_sees_inputs();
    saw_context::writes_are_covered();
    saw_context::conversation_is_not_early();
    saw_context::sound_is_outcome();
    saw_context::seen_is_over();
    saw_context::gathered_changes_show();
    saw_context::may_come_is_told();
    saw_context::sound_may_come();
    saw_context::telling_decides();
    saw_context::serial_may_come();
    saw_context::access_is_kept();
    saw_context::lanes_are_serial();
    saw_context::addresses_are_kept();
    saw_intkey::replies_decide();
    saw_intkey::reasons_are_own();
    saw_intkey::kept_is_read();
    saw_intkey::payload_is_read();
    saw_xo::replies_decide();
    saw_xo::reasons_are_own();
    saw_xo::kept_is_read();
    saw_settings::replies_decide();
    saw_settings::reasons_are_own();
    saw_settings::settings_are_read_back();
}

#[test]
fn laws_of_schedules(_rt: HostRuntime) {
    saw_machine::states_are_lawful();
    saw_machine::never_stuck();
    saw_machine::view_is_last();
    saw_machine::no_later_change();
    saw_machine::no_later_write();
    saw_machine::edges_decide();
    saw_machine::edges_hit();
    saw_machine::no_needless_rerun();
    saw_machine::few_reruns();
    saw_schedule::steps_are_serial();
    saw_schedule::histories_are_lawful();
    saw_schedule::never_stuck();
    saw_schedule::no_needless_rerun();
    saw_schedule::few_reruns();
    saw_tickets::claimed_once();
    saw_tickets::claimed_is_issued();
}

#[test]
fn laws_of_blocks_and_streams(_rt: HostRuntime) {
    saw_verify::list_is_read();
    saw_checks::faultless_batch_is_good();
    saw_checks::faultless_block_is_good();
    saw_plan::nothing_dropped_keeps_all();
    saw_journal::branch_is_chain();
    saw_journal::kept_branch_is();
    saw_journal::kept_is_left();
    saw_journal::faults_have_numbers();
    saw_journal::told_is_said_serially();
    saw_journal::told_is_answered_serially::<NoStation>();
    saw_generate::every_batch_applies();
    saw_generate::draws_of_seven();
    saw_top::frames_are_read();
    saw_words::options_are_read();
    saw_top::order_of_options_does_not_show();
    saw_top::built_in_processors_tell();
    saw_top::all_is_told();
    saw_top::candidate_is_accepted();
    saw_top::generated_stream_is_committed();
    saw_top::map_behind_is_branch();
    saw_top::events_leave_state();
}
