// Where a call stands: the step that comes next, with what the call remembers. Places are nested by role: LIFO's and FIFO's own
// loads and pops; what both kinds do on the own queue; booking, moving and closing at the source.
use super::call::Rule;
use words::Position;

// Which of the two moves tokens: a steal, or a take, which keeps its last token in hand.
#[derive(Clone, Copy, PartialEq, Eq)]
pub enum Transfer {
    Steal,
    Take,
}

// A call of the owner that first loads its own words, to see the room.
#[derive(Clone, Copy)]
pub enum OwnerCall {
    Push(u64),
    Extend,
    Spare,
}

// A steal or a take under way.
#[derive(Clone, Copy)]
pub struct TransferCall {
    pub source: u64,
    pub rule: Rule,
    pub transfer: Transfer,
}

// Whoever loads the own words to see the room.
#[derive(Clone, Copy)]
pub enum RoomCall {
    Owner(OwnerCall),
    Transfer(TransferCall),
}

// What the destination loads found: the word that the store goes over, the tail, the room.
#[derive(Clone, Copy)]
pub struct Destination {
    pub word: u32,
    pub tail: u32,
    pub room: u32,
}

// Whoever books.
#[derive(Clone, Copy)]
pub enum BookingCall {
    Transfer(TransferCall, Destination),
    Drain(Rule),
}

// Booked tokens on their way: `count` of them from position `from` of the source on, to the destination's tail, where the store
// goes over `word`.
#[derive(Clone, Copy)]
pub struct BookedTokens {
    pub source: u64,
    pub transfer: Transfer,
    pub word: u32,
    pub tail: u32,
    pub from: u32,
    pub count: u32,
}

// Whoever closes a booking, with what its answer will say.
#[derive(Clone, Copy)]
pub enum ClosingCall {
    Steal { source: u64, count: u32 },
    Take { source: u64, token: u64, count: u32 },
    Next(u64),
    Drop,
}

// LIFO's places on the own queue: the loads that push, extend, spare, steal and take begin with; pop; empty.
#[derive(Clone, Copy)]
pub enum LifoPlace {
    LoadPushes(RoomCall),
    LoadPacked {
        call: RoomCall,
        pushes: u32,
    },
    LoadCompleted {
        call: RoomCall,
        pushes: u32,
        packed: u64,
    },
    PopPacked,
    PopPushes {
        packed: u64,
    },
    PopCas {
        packed: u64,
        tail: u32,
    },
    EmptyPushes,
    EmptyPacked {
        pushes: u32,
    },
}

// FIFO's: the loads of push, extend and spare; the destination loads of steal and take; pop; empty.
#[derive(Clone, Copy)]
pub enum FifoPlace {
    LoadPacked(OwnerCall),
    LoadTail { call: OwnerCall, packed: u64 },
    DestTail(TransferCall),
    DestPacked { transfer: TransferCall, tail: u32 },
    PopPacked,
    PopTail { packed: u64 },
    PopCas { packed: u64 },
    EmptyPacked,
    EmptyTail { packed: u64 },
}

// What both kinds do on the own queue once the loads are done.
#[derive(Clone, Copy)]
pub enum OwnPlace {
    PushWrite {
        token: u64,
        word: u32,
        tail: u32,
    },
    PushStore {
        word: u32,
    },
    ExtendMore {
        pops: u32,
        tail: u32,
        limit: u32,
        written: u32,
    },
    ExtendStore {
        pops: u32,
        tail: u32,
        written: u32,
    },
    PopRead {
        at: Position,
    },
    NextItem,
    DropItem,
}

// A booking's loads and its compare-exchange, by the source's kind.
#[derive(Clone, Copy)]
pub enum BookPlace {
    LifoPacked,
    LifoCompleted {
        packed: u64,
    },
    LifoPushes {
        packed: u64,
        completed: u32,
    },
    LifoCas {
        packed: u64,
        completed: u32,
        count: u32,
    },
    FifoPacked,
    FifoTail {
        packed: u64,
    },
    FifoCas {
        packed: u64,
        count: u32,
    },
}

// Booked tokens moved one by one, then the destination's store. A steal's `last` is 0, as the tables and a block's words have it.
#[derive(Clone, Copy)]
pub enum MovePlace {
    ReadSlot {
        booked: BookedTokens,
        moved: u32,
    },
    WriteSlot {
        booked: BookedTokens,
        moved: u32,
        token: u64,
    },
    Land {
        booked: BookedTokens,
        last: u64,
    },
}

// The end of a booking, by the source's kind.
#[derive(Clone, Copy)]
pub enum ClosePlace {
    StoreCompleted { head: u32 },
    LoadHeads,
    CasHeads { packed: u64 },
}

// A party's place, by role.
#[derive(Clone, Copy)]
pub enum Place {
    Idle,
    Lifo(LifoPlace),
    Fifo(FifoPlace),
    Own(OwnPlace),
    Book(BookingCall, BookPlace),
    Move(MovePlace),
    Close(ClosingCall, ClosePlace),
}
