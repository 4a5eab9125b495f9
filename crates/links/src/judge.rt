//! Whether the values of links are in the rules' ranges. Links that join nothing are judged too.
ghost use Rattle.std.specs.Prelude.{◌≡◌};
ghost use Rattle.std.specs.List.{list_all};
ghost use Rattle.links.specs.Judged.{in_half, footprint_in_range, terminal_in_range, via_in_range, channel_in_range};
ghost use Rattle.links.specs.Judged.{links_in_range};

use crate::rows::{Channel, Footprint, Links, Terminal, Via};
use cell::ticks::in_range;
use floats::sheet_in_range;
use refusals::limits::COORDINATE;

fn half_in_range(half: i64) -> bool
    ensures { result ≡ in_half half }
{
    (0 <= half) & (half <= COORDINATE)
}

impl Footprint {
    fn in_range(&self) -> bool
        ensures { result ≡ footprint_in_range self.now }
    {
        in_range(self.x)
            & in_range(self.y)
            & half_in_range(self.half_width)
            & half_in_range(self.half_height)
    }
}

impl Terminal {
    fn in_range(&self) -> bool
        ensures { result ≡ terminal_in_range self.now }
    {
        in_range(self.x) & in_range(self.y)
    }
}

impl Via {
    fn in_range(&self) -> bool
        ensures { result ≡ via_in_range self.now }
    {
        self.footprint.in_range() & sheet_in_range(self.resistance)
    }
}

impl Channel {
    fn in_range(&self) -> bool
        ensures { result ≡ channel_in_range self.now }
    {
        self.drain.in_range() & self.source.in_range() & sheet_in_range(self.resistance)
    }
}

fn vias_in_range(vias: &[Via]) -> bool
    ensures { result ≡ list_all via_in_range vias.now }
{
    vias.iter().all(|via| via.in_range())
}

fn channels_in_range(channels: &[Channel]) -> bool
    ensures { result ≡ list_all channel_in_range channels.now }
{
    channels.iter().all(|channel| channel.in_range())
}

impl Links<'_> {
    /// Whether every value is in range; the numbers of contacts have none.
    #[tactic(auto, unfolding(crate::specs::Judged::links_in_range))]
    pub fn in_range(&self) -> bool
        ensures { result ≡ links_in_range self.now }
    {
        vias_in_range(self.vias) && channels_in_range(self.channels)
    }
}
