//! Hands and clients become those that take part, and come back from there.
ghost use Rattle.std.specs.Prelude.{◌≡◌, ◌≤◌, ◌+◌, [], ◌++◌, All, length, vec_capacity, vec_len};
ghost use Rattle.host_play.specs.Casts.{HasTakenClient, IsMadeOf, clients_in, ends_of_client};
ghost use Rattle.host_play.specs.Casts.{hands_in};

use crate::actor::{Actor, Client};
use host_block::Bytes;
use host_io::Disk;
use host_session::ClientEnd;
use host_worker::Hand;

/// Those that take part: the clients first, each with a hand and with the pieces for its shows, and
/// then the other hands.
pub fn cast_all<D: Disk>(
    mut clients: Vec<ClientEnd>,
    mut hands: Vec<Hand<D>>,
    mut pieces: Vec<Vec<Bytes>>,
    room: Vec<Actor<D>>,
) -> Vec<Actor<D>>
    requires room { (room.items ≡ []) × (length hands.items ≤ vec_capacity room) }
    requires enough { length clients.items ≤ length hands.items }
    requires pieces { length pieces.items ≡ length clients.items }
    ensures hands { hands_in result.items ≡ hands.items }
    ensures clients { clients_in result.items ≡ clients.items }
    ensures made { All (IsMadeOf clients.items pieces.items) result.items }
{
    let mut actors = room;
    while let Some(hand) = hands.pop() {
        let client = take_client(&mut clients, &mut pieces);
        actors.push_reserved(Actor { hand, client });
    }
    actors
}

// The last client, with its pieces.
fn take_client(clients: &mut Vec<ClientEnd>, pieces: &mut Vec<Vec<Bytes>>) -> Option<Client>
    requires { vec_len pieces.old ≡ vec_len clients.old }
    ensures { HasTakenClient clients.old.items clients.new.items pieces.old.items pieces.new.items
        result }
{
    let end = clients.pop()?;
    let pieces = pieces.pop().unwrap();
    Some(Client { end, pieces })
}

/// The clients and hands of those that took part come back, by their numbers.
pub fn dismiss_all<D: Disk>(
    mut actors: Vec<Actor<D>>,
    clients: &mut Vec<ClientEnd>,
    hands: &mut Vec<Hand<D>>,
)
    requires room { length hands.old.items + length actors.items ≤ vec_capacity hands.old }
    requires clients { length clients.old.items + length (clients_in actors.items)
        ≤ vec_capacity clients.old }
    ensures hands { hands.new.items ≡ hands.old.items ++ hands_in actors.items }
    ensures clients { clients.new.items ≡ clients.old.items ++ clients_in actors.items }
{
    while let Some(actor) = actors.pop() {
        let Actor { hand, client } = actor;
        hands.push_reserved(hand);
        put_client(clients, client);
    }
}

// A client's end comes last, if there is a client.
fn put_client(clients: &mut Vec<ClientEnd>, client: Option<Client>)
    requires { length clients.old.items + length (ends_of_client client)
        ≤ vec_capacity clients.old }
    ensures items { clients.new.items ≡ clients.old.items ++ ends_of_client client }
    ensures capacity { vec_capacity clients.new ≡ vec_capacity clients.old }
{
    if let Some(client) = client {
        clients.push_reserved(client.end);
    }
}
