//! Tests of sources, sinks and the files of hosts through public items.
#![tactic(auto)]

mod host_tests;
mod stream_tests;
