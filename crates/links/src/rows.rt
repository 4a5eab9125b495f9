//! The rows of links as a caller lends them: contacts between polygons, vias between layers, channels within a layer.
ghost use Rattle.std.specs.Prelude.{◌≡◌, []};

/// Two polygons that touch, by number. Where one is past the last polygon, or has no leaf, there is no link.
#[repr(C)]
#[derive(Clone, Copy, Debug, PartialEq, Eq)]
pub struct Contact {
    pub from: usize,
    pub to: usize,
}

/// A rectangle by its centre and its half sizes, in ticks; a point where a half size is 0.
#[repr(C)]
#[derive(Clone, Copy, Debug, PartialEq, Eq)]
pub struct Footprint {
    pub x: i64,
    pub y: i64,
    pub half_width: i64,
    pub half_height: i64,
}

/// A via: what joins two layers of one component, and its resistance in ohms.
#[repr(C)]
#[derive(Clone, Copy, Debug, PartialEq)]
pub struct Via {
    pub bottom: u16,
    pub top: u16,
    pub component: u32,
    pub footprint: Footprint,
    pub resistance: f64,
}

/// An end of a channel: a component, and a place in ticks.
#[repr(C)]
#[derive(Clone, Copy, Debug, PartialEq, Eq)]
pub struct Terminal {
    pub component: u32,
    pub x: i64,
    pub y: i64,
}

/// A channel between two components of the channel layer, and its resistance in ohms.
#[repr(C)]
#[derive(Clone, Copy, Debug, PartialEq)]
pub struct Channel {
    pub drain: Terminal,
    pub source: Terminal,
    pub resistance: f64,
}

/// The links of a net. Nothing is known of them but their types.
#[derive(Clone, Copy)]
pub struct Links<'a> {
    pub contacts: &'a [Contact],
    pub vias: &'a [Via],
    pub channel_layer: u16,
    pub channels: &'a [Channel],
}

impl Links<'_> {
    /// No link at all.
    pub fn none() -> Links<'static>
        ensures contacts { result.contacts.now ≡ [] }
        ensures vias { result.vias.now ≡ [] }
        ensures channel_layer { result.channel_layer ≡ 0 }
        ensures channels { result.channels.now ≡ [] }
    {
        Links {
            contacts: &[],
            vias: &[],
            channel_layer: 0,
            channels: &[],
        }
    }
}
