//! Each law of messages of the link is called once.

#[test]
fn laws_of_link_messages(_rt: HostRuntime) {
    saw_linkmsg::envelopes_are_read_back();
    saw_linkmsg::registrations_are_read_back();
    saw_linkmsg::processes_are_read_back();
    saw_linkmsg::state_requests_are_read_back();
    saw_linkmsg::state_responses_are_read_back();
    saw_linkmsg::events_are_read_back();
}
