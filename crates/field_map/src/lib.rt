//! Names bound to places in trace headers, and the names of trace and binary header fields that
//! are always known.
//!
//! A place is a header, a first byte counted from 1, a size and a sign. [`named`] looks up the
//! names of a trace's fields that are always known, those of Seismic Unix and segyio among them,
//! [`standard`] those of them that are never bound anew, and [`bin_field`] those of the binary
//! header; none takes memory. [`header_field`] lists the trace header's. A [`FieldMap`] holds
//! the names that a user binds, in order, among them the six geometry names; contracts see it as
//! the list of its names and places, with the number of header extensions that bounds what may be
//! bound. It keeps the places of the six as a [`Geometry`], for callers that read them of each
//! trace. Making one and `bind` take memory; no other call does.
#![tactic(auto)]

mod entries;
mod field_map;
mod geometry;
mod known_names;
mod map_fault;
mod names;
mod place;
mod rules;
mod tables;

pub use crate::entries::Entries;
pub use crate::field_map::FieldMap;
pub use crate::geometry::Geometry;
pub use crate::known_names::{header_field, named};
pub use crate::map_fault::MapFault;
pub use crate::names::{bin_field, standard};
pub use crate::place::{Place, TRACE_HEADER_BYTES};
pub use crate::rules::is_geometry;
pub use room::OutOfMemory;
