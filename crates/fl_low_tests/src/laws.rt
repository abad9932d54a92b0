//! The laws, each called.
use fl_aliases::laws as aliases;
use fl_ops::laws as ops;
use fl_opset::laws as opset;
use fl_wire::laws::law_one_packet;

#[test]
fn laws(_rt: HostRuntime) {
    ops::law_order();
    ops::law_one_spelling();
    ops::law_reach();
    ops::law_effective();
    ops::law_no_open();
    ops::law_login();
    opset::law_join();
    opset::law_equal_text();
    opset::law_windows();
    opset::law_one_summary();
    opset::law_caught_up();
    law_one_packet();
    aliases::law_one_expansion();
    aliases::law_plain();
    aliases::law_target_in_word();
    aliases::law_words();
    aliases::law_comment();
    aliases::law_place();
    aliases::law_set();
}
