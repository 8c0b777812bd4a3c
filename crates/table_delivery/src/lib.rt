// A delivery, `DeliveryRecord` of the Rust, as a row of eight words.
#![tactic(auto)]

ghost use Rattle.std.specs.Prelude.{refl};
ghost use Rattle.table_delivery.specs.Delivery.{width, form, exact};

use table_rows::Row;

// How many words a delivery has.
pub const WIDTH: usize = 8;

// `kind` is the message type, `sent` is sent_at, `time` is delivered_at, `scope` the shard or the number for global.
#[derive(Clone, Copy)]
pub struct Delivery {
    pub from: u64,
    pub to: u64,
    pub kind: u64,
    pub class: u64,
    pub sent: u64,
    pub time: u64,
    pub scope: u64,
    pub wire: u64,
}

impl Row for Delivery {
    ghost form = { form };

    ghost WIDTH = { width };

    const WIDTH: usize = WIDTH;

    fn get(ws: &[u64], b: usize) -> Delivery {
        Delivery {
            from: ws[b],
            to: ws[b + 1],
            kind: ws[b + 2],
            class: ws[b + 3],
            sent: ws[b + 4],
            time: ws[b + 5],
            scope: ws[b + 6],
            wire: ws[b + 7],
        }
    }

    fn put(self, ws: &mut [u64], b: usize) {
        ws[b] = self.from;
        ws[b + 1] = self.to;
        ws[b + 2] = self.kind;
        ws[b + 3] = self.class;
        ws[b + 4] = self.sent;
        ws[b + 5] = self.time;
        ws[b + 6] = self.scope;
        ws[b + 7] = self.wire;
    }

    ghost exact = { exact };

    ghost wide = { refl };
}
