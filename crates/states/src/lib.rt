// The floor of states: for each layout a module with its struct of named fields, its width in bytes, its state without
// data if bit 0 is DAT, and the way from its fields' values in the rows' order to a state and back. Written by
// catalogue/write.py from catalogue/fields.tsv. It checks nothing. The comment beside a field is its mnemonic in the
// first annex that prints the layout.
// No trait of its own joins the structs: each caller has an arm for each kind, so none would be generic over it.
#![tactic(auto)]

mod changer_signal;
mod control_boundary;
mod crossing_track_circuit;
mod dual_detection;
mod electric_lock;
mod general_notices;
mod line_track_circuit;
mod points;
mod points_track_circuit;
mod signal;
mod signal_v3;
mod virtual_board;

pub use changer_signal::ChangerSignal;
pub use control_boundary::ControlBoundary;
pub use crossing_track_circuit::CrossingTrackCircuit;
pub use dual_detection::DualDetection;
pub use electric_lock::ElectricLock;
pub use general_notices::GeneralNotices;
pub use line_track_circuit::LineTrackCircuit;
pub use points::Points;
pub use points_track_circuit::PointsTrackCircuit;
pub use signal::Signal;
pub use signal_v3::SignalV3;
pub use virtual_board::VirtualBoard;
