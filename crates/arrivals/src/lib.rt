//! Packets that arrive at a new channel, one after the other.
#![tactic(auto)]

ghost use Rattle.std.specs.Prelude.{◌≡◌, OnOk, OnErr};
ghost use Rattle.model.specs.Reorder.{fresh};
ghost use Rattle.order.specs.InOrder.{HasOrdered};
ghost use Rattle.chan.specs.Channels.{on_of, IsOnChannel};
ghost use Rattle.chan.specs.Arriving.{reliable};
ghost use Rattle.arrivals.specs.Refused.{FrontOrdered};

use chan::OnChannel;
use list::Full;
use packet::Packet;

/// These packets arrive. In any order, repeats included, the bundles are made in the order that the packets were sent in. `Full` says that
/// a packet found the channel at a limit: those before it have arrived, it and those after it have not.
pub fn receive(channel: &mut OnChannel, packets: &[Packet]) -> Result<(), Full>
    requires channel { IsOnChannel channel.old }
    requires new { reliable channel.old ≡ fresh }
    ensures channel { IsOnChannel channel.new }
    ensures ordered { OnOk result (HasOrdered packets.now (reliable channel.new)) }
    ensures refused { OnErr result (FrontOrdered packets.now (on_of channel.new)) }
{
    for p in packets {
        channel.add_in_reliable_packet(*p)?;
    }
    Ok(())
}
