// Maps, plans and reports.

/// The crossing: two robots whose ways cross in one cell. Robot 0 goes first.
pub const CROSSING: Texts<'static> = (CROSSING_MAP, CROSSING_PLAN);

pub const CROSSING_MAP: &[u8] = b"type octile\nheight 3\nwidth 5\nmap\n@@.@@\n.....\n@@.@@\n";

pub const CROSSING_PLAN: &[u8] =
    b"Agent 0: (1,0)->(1,1)->(1,2)->(1,3)->(1,4)\nAgent 1: (0,2)->(0,2)->(0,2)->(1,2)->(2,2)\n";

/// The corridor: two robots that go through it in opposite directions, one after the other.
pub const CORRIDOR: Texts<'static> = (CORRIDOR_MAP, CORRIDOR_PLAN);

pub const CORRIDOR_MAP: &[u8] = b"type octile\nheight 3\nwidth 6\nmap\n.@@@@.\n......\n.@@@@.\n";

pub const CORRIDOR_PLAN: &[u8] =
    b"Agent 0: (0,0)->(1,0)->(1,1)->(1,2)->(1,3)->(1,4)->(1,5)->(2,5)\nAgent 1: (0,5)->(0,5)->(0,5)->(0,5)->(0,5)->(0,5)->(0,5)->(1,5)->(1,4)->(1,3)->(1,2)->(1,1)->(1,0)->(2,0)\n";

/// The row: three robots that follow one another.
pub const ROW: Texts<'static> = (
    b"type octile\nheight 1\nwidth 6\nmap\n......\n",
    b"Agent 0: (0,2)->(0,3)->(0,4)->(0,5)\nAgent 1: (0,1)->(0,2)->(0,3)->(0,4)\nAgent 2: (0,0)->(0,1)->(0,2)->(0,3)\n",
);

/// The bytes of a map, and of a plan.
pub type Texts<'t> = (&'t [u8], &'t [u8]);

/// Reports over the crossing, all of which are accepted: the lines, the answer to each, and what a session sends first that
/// opens after so many of them.
#[derive(Clone, Copy)]
pub struct Script {
    pub reports: &'static [&'static [u8]],
    pub answers: &'static [&'static [u8]],
    pub greetings: &'static [&'static [u8]],
}

/// Both robots arrive at all their visits.
pub const WHOLE_PLAN: Script = Script {
    reports: &[
        b"arrive 0 1 1\n",
        b"arrive 0 2 2\n",
        b"arrive 0 3 3\n",
        b"arrive 0 4 4\n",
        b"arrive 1 1 4\n",
        b"arrive 1 2 5\n",
    ],
    answers: &[
        b"release 0 2 1 2\nok 1\n",
        b"release 0 3 1 3\nok 2\n",
        b"release 0 4 1 4\nrelease 1 1 1 2\nok 3\n",
        b"ok 4\n",
        b"release 1 2 2 2\nok 5\n",
        b"ok 6\n",
    ],
    greetings: &[
        b"ready 0\nrelease 0 1 1 1\n",
        b"ready 1\nrelease 0 2 1 2\n",
        b"ready 2\nrelease 0 3 1 3\n",
        b"ready 3\nrelease 0 4 1 4\nrelease 1 1 1 2\n",
        b"ready 4\nrelease 1 1 1 2\n",
        b"ready 5\nrelease 1 2 2 2\n",
        b"ready 6\n",
    ],
};

/// The same with some delays on the way. The first one lets robot 1 go first.
pub const WITH_DELAYS: Script = Script {
    reports: &[
        b"delay 0 1 5 0\n",
        b"arrive 0 1 6\n",
        b"delay 0 2 3 6\n",
        b"delay 1 1 2 7\n",
        b"arrive 1 1 9\n",
        b"arrive 1 2 10\n",
        b"arrive 0 2 14\n",
        b"arrive 0 3 15\n",
        b"arrive 0 4 16\n",
    ],
    answers: &[
        b"order optimal 11\nswitch 0\ncert bound\nrelease 1 1 1 2\nok 1\n",
        b"ok 2\n",
        b"order optimal 20\ncert bound\ncert path 0 1 0\nok 3\n",
        b"order optimal 22\ncert bound\ncert path 0 1 0\nok 4\n",
        b"release 1 2 2 2\nok 5\n",
        b"release 0 2 1 2\nok 6\n",
        b"release 0 3 1 3\nok 7\n",
        b"release 0 4 1 4\nok 8\n",
        b"ok 9\n",
    ],
    greetings: &[
        b"ready 0\nrelease 0 1 1 1\n",
        b"ready 1\nrelease 0 1 1 1\nrelease 1 1 1 2\n",
        b"ready 2\nrelease 1 1 1 2\n",
        b"ready 3\nrelease 1 1 1 2\n",
        b"ready 4\nrelease 1 1 1 2\n",
        b"ready 5\nrelease 1 2 2 2\n",
        b"ready 6\nrelease 0 2 1 2\n",
        b"ready 7\nrelease 0 3 1 3\n",
        b"ready 8\nrelease 0 4 1 4\n",
        b"ready 9\n",
    ],
};
