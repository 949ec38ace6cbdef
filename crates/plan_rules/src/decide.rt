// One line decided by value, with nothing printed. The whole input is a module below this one, so that what these functions ask of their caller stays theirs.
ghost use Rattle.std.specs.Prelude.{◌≡◌, ◌<◌, length};
ghost use Rattle.line.specs.Readers.{read_origin, read_geodetic};
ghost use Rattle.plan_rules.specs.Plan.{Plan, origin_reply, origin_after, geodetic_reply, reply_of, next_of};
ghost use Rattle.plan_rules.specs.State.{Holds, Gave, unread_reply, reply_told};

use crate::{Decided, Reply, State};
use line::Unread;
use refusal::Refusal;

pub mod whole;

// The reply to a line that is not read or not answered.
fn refused(line: u64, unread: Unread) -> Reply
    ensures { result ≡ unread_reply line unread }
{
    match unread {
        Unread::Malformed(fault) => Reply::Refused(line, fault.refusal.number(), fault.place),
        Unread::Refused(refusal) => Reply::Refused(line, refusal.number(), 0),
    }
}

impl State {
    // A line that begins with O: an origin is accepted on the first line. That it stands on another comes after its form and before what it says.
    fn decide_origin(&mut self, text: &[u8]) -> Result<Reply, Unread>
        ensures { (p : Plan) → Holds self.old p → Gave p (origin_reply p (read_origin text.now)) (origin_after p (read_origin text.now)) result self.new }
    {
        let read = line::read_origin(text);
        if let Err(Unread::Malformed(fault)) = read {
            return Err(Unread::Malformed(fault));
        }
        if self.line != 1 {
            return Err(Unread::Refused(Refusal::Misplaced));
        }
        let origin = angle::make_origin(read?)?;
        self.origin = Some(origin);
        Ok(Reply::Nothing)
    }

    // A line that begins with G: a position on the plan's origin. That there is none comes after its form and before what it says.
    fn decide_geodetic(&self, text: &[u8]) -> Result<Reply, Unread>
        ensures { (p : Plan) → Holds self.now p → reply_told p.line result ≡ geodetic_reply p (read_geodetic text.now) }
    {
        let read = line::read_geodetic(text);
        if let Err(Unread::Malformed(fault)) = read {
            return Err(Unread::Malformed(fault));
        }
        let Some(origin) = self.origin else {
            return Err(Unread::Refused(Refusal::Earlier));
        };
        let g = read?;
        let at = angle::cassini_millimetres_from(origin, g.latitude, g.longitude)?;
        Ok(Reply::Projected(g.id, at.easting, at.northing))
    }

    // Any line but the empty piece, by its first byte: its reply or why it has none, and the origin after it.
    // stays a row of ifs: two letters, and what is strange
    fn examine(&mut self, text: &[u8]) -> Result<Reply, Unread>
        requires { 0 < length text.now }
        ensures { (p : Plan) → Holds self.old p → Gave p (reply_of p text.now) (next_of p text.now).origin result self.new }
    {
        let letter = text[0];
        if letter == b'O' {
            return self.decide_origin(text);
        }
        if letter == b'G' {
            return self.decide_geodetic(text);
        }
        Err(Unread::Malformed(line::strange(text)))
    }

    // A line decided: the reply to it, and the state after it.
    fn decide(self, text: &[u8]) -> Decided
        requires { (self.line < 1000000) × (0 < length text.now) }
        ensures { (p : Plan) → Holds self p → (result.reply ≡ reply_of p text.now) × Holds result.state (next_of p text.now) }
    {
        let mut next = self;
        let examined = next.examine(text);
        next.line = self.line + 1;
        match examined {
            Ok(reply) => Decided { reply, state: next },
            Err(unread) => Decided {
                reply: refused(self.line, unread),
                state: next,
            },
        }
    }
}
