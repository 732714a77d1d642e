// A feeder of whichever kind a sheet had.
use gates::GateRow;
use squeeze::SqueezeTable;
use trays::Tray;

#[derive(Clone, Copy)]
pub enum SheetFeeder {
    Squeeze(SqueezeTable),
    Tray(Tray),
    Gates(GateRow),
}
