// What holds of every run of the host's layers over our reader, whatever the wire spoils.
#![tactic(auto)]

mod promises;

pub use promises::{
    a_block_is_taken_or_is_paid_for, a_capacity_is_the_size_or_is_paid_for,
    a_control_transfer_is_done_or_paid_for, a_halted_endpoint_refuses_data,
    a_halted_endpoint_sends_nothing, a_read_has_the_sectors_or_is_paid_for,
    a_status_is_heard_or_is_paid_for, a_test_passes_or_is_paid_for,
    a_write_puts_its_sectors_or_is_paid_for, attaching_puts_the_ends_in_step,
    failed_deliveries_are_paid_for, failed_fetches_are_paid_for, recovering_puts_the_ends_in_step,
};
