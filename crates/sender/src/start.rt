// What setting up gives a flow and what all flows share: the fresh state, and an empty ring's memory.
ghost use Rattle.std.specs.Prelude.{◌≡◌};
ghost use Rattle.ledger.specs.Lent.{memory_of_mut, IsSameLoan};
ghost use Rattle.sender.specs.Start.{no_settings, fresh_state, zeros, clear_memory};

use crate::Controller;
use ledger::ring::RingMut;
use ledger::{Flow, Totals};
use window::Settings;

// Settings of zeros.
pub fn no_settings() -> Settings
    ensures { result ≡ no_settings }
{
    Settings {
        mtu: 0,
        maxwnd: 0,
        config_base_rtt: 0,
        target_qdelay: 0,
        fi: 0,
        eta: 0,
        alpha: 0,
        gamma: 0,
        max_md_jump: 0,
        adjust_period: 0,
        adjust_bytes: 0,
        qa_threshold: 0,
        first_psn: 0,
        quick_adapt_off: rules::OFF,
        ev_count: 0,
    }
}

// The fresh state.
pub fn fresh(settings: Settings) -> Controller
    ensures { result ≡ fresh_state settings }
{
    let psn = settings.first_psn;
    Controller {
        settings,
        flow: Flow {
            low: psn,
            next: psn,
            held: 0,
            backlog: 0,
        },
        totals: Totals {
            flying: 0,
            marked: 0,
            marked_bytes: 0,
            backlog: 0,
            in_flight: 0,
        },
        window: window::bounds::fresh(settings),
        clock: 0,
        cursor: 0,
        phase: crate::IDLE,
    }
}

// An empty ring's memory and EV times, all zeros.
pub fn clear(ring: &mut RingMut<'_>, evs: &mut [u64])
    ensures same_loan { IsSameLoan ring.old ring.new }
    ensures zeros { (memory_of_mut ring.new ≡ clear_memory (memory_of_mut ring.old)) × (evs.new ≡ zeros evs.old) }
{
    ring.outstanding.fill(0);
    ring.marked.fill(0);
    ring.sizes.fill(0);
    ring.sent.fill(0);
    evs.fill(0);
}
