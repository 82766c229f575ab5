//! Where what is known of each net stands while it is read.

use std::mem;

/// What is known of the nets that are still to be read, each in its room.
#[derive(Debug, Drop)]
pub struct Rooms<W> {
    rooms: Vec<W>,
    /// The room of each net.
    places: Vec<usize>,
}

impl<W> Rooms<W> {
    /// These rooms, and which of them each net has.
    pub fn new(rooms: Vec<W>, places: Vec<usize>) -> Self {
        Rooms { rooms, places }
    }

    /// What is known of a net.
    pub fn of(&self, net: u32) -> Option<&W> {
        let place = self.places.get(net as usize)?;
        self.rooms.get(*place)
    }

    /// What is known of a net, to be changed.
    pub fn of_mut(&mut self, net: usize) -> Option<&mut W> {
        let place = self.places.get(net)?;
        self.rooms.get_mut(*place)
    }

    /// Puts something else into the room of a net, and hands back what stood there.
    pub fn exchange(&mut self, net: usize, it: &mut W) {
        if let Some(known) = self.of_mut(net) {
            mem::swap(known, it);
        }
    }
}
