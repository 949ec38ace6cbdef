// The lines, good ones and damaged ones. Their answers stand in the file stdout, in the order in which `main` goes over the tables.

pub const GOOD_POINTS: [&[u8]; 4] = [
    b"P\tA1\t1\t1\t6\t2000000\t-113105165410\t623631179950\t71174811140\n",
    b"P\tSIXTEEN-BYTES-16\t65535\t1\t10\t2100000\t-640000000000\t640000000000\t0\n",
    b"P\t-\t1\t1\t1\t0\t0\t0\t-1\n",
    b"P\t0\t1\t1\t5\t1980000\t9\t-9\t10\n",
];

pub const POINTS_OF_BAD_FORM: [&[u8]; 14] = [
    b"P\tA3\t01\t1\t6\t2000000\t-113105165410\t623631179950\t71174811140\n",
    b"P\tA1\t1\t1\t6\t2000000\t1\t2\t-0\n",
    b"P\tA1\t+1\t1\t6\t2000000\t1\t2\t3\n",
    b"P\tA1\t00\t1\t6\t2000000\t1\t2\t3\n",
    b"P\tA1\t-\t1\t6\t2000000\t1\t2\t3\n",
    b"P\tA1\t--1\t1\t6\t2000000\t1\t2\t3\n",
    b"P\tA1\t1.0\t1\t6\t2000000\t1\t2\t3\n",
    b"P\tA1\t1 \t1\t6\t2000000\t1\t2\t3\n",
    b"P\tSEVENTEEN-BYTES-17\t1\t1\t6\t2000000\t1\t2\t3\n",
    b"P\ta1\t1\t1\t6\t2000000\t1\t2\t3\n",
    b"P\tA_1\t1\t1\t6\t2000000\t1\t2\t3\n",
    b"P\t\t1\t1\t6\t2000000\t1\t2\t3\n",
    b"P\tA1\t\t1\t6\t2000000\t1\t2\t3\n",
    b"P\tA1\t1\t1\t6\t2000000\t1\t2\t\n",
];

pub const POINTS_WITH_WRONG_FIELDS: [&[u8]; 17] = [
    b"P\tA1\t1\t1\t6\t2000000\t1\t2\t3",
    b"P\tA1\t1\t1\t6\t2000000\t1\t2\t3\t\n",
    b"P\tA1\t1\t1\t6\t2000000\t1\t2\n",
    b"P\tA1\t1\t1\t6\t2000000\t1\t2\t3\t4\n",
    b"P\tA1\t1\t1\t6\t2000000\t1\n\t2\t3\n",
    b"P\tA1\t1\t1\t6\t2000000\t1\t2\t3\r\n",
    b"P\tA1\t1\t1\t6\t2000000\t1\t2\t3\n\n",
    b"P A1 1 6 2000000 1 2 3\n",
    b"p\tA1\t1\t1\t6\t2000000\t1\t2\t3\n",
    b"PP\tA1\t1\t1\t6\t2000000\t1\t2\t3\n",
    b"\tA1\t1\t1\t6\t2000000\t1\t2\t3\n",
    b"P\n",
    b"P",
    b"\n",
    b"",
    b"S\tT\t6\t2000000\t6\t2006586\t-15832\t-4363\t-9706\n",
    b"P\tA1\t0\t1\t6\t2000000\t1\t2\tx\n",
];

pub const POINTS_OUT_OF_RANGE: [&[u8]; 16] = [
    b"P\tA1\t0\t1\t6\t2000000\t1\t2\t3\n",
    b"P\tA1\t65536\t1\t6\t2000000\t1\t2\t3\n",
    b"P\tA1\t-1\t1\t6\t2000000\t1\t2\t3\n",
    b"P\tA1\t18446744073709551617\t1\t6\t2000000\t1\t2\t3\n",
    b"P\tA1\t1\t1\t0\t2000000\t1\t2\t3\n",
    b"P\tA1\t1\t1\t11\t2000000\t1\t2\t3\n",
    b"P\tA1\t1\t1\t6\t1979999\t1\t2\t3\n",
    b"P\tA1\t1\t1\t6\t2100001\t1\t2\t3\n",
    b"P\tA1\t1\t1\t6\t2000000\t-640000000001\t2\t3\n",
    b"P\tA1\t1\t1\t6\t2000000\t1\t640000000001\t3\n",
    b"P\tA1\t1\t1\t6\t0\t1\t2\t10000000000000\n",
    b"P\tA1\t1\t1\t6\t0\t1\t2\t3\n",
    b"P\tA1\t1\t1\t1\t2000000\t1\t2\t3\n",
    b"P\tA1\t1\t1\t2\t1980000\t1\t2\t3\n",
    b"P\tA1\t1\t1\t6\t2000000\t0\t0\t11111111111111111111111111111111111111111111111111111111111111111111111111111111111111111111111111111111111111111111111111111111111111111111111111111111111111111111111111111111\n",
    b"P\tA1\t1\t1\t6\t2000000\t0\t0\t111111111111111111111111111111111111111111111111111111111111111111111111111111111111111111111111111111111111111111111111111111111111111111111111111111111111111111111111111111111\n",
];

pub const GOOD_STEPS: [&[u8]; 5] = [
    b"S\tT\t6\t2000000\t6\t2006586\t-15832\t-4363\t-9706\n",
    b"S\tV\t9\t2010000\t9\t2020000\t-10000\t0\t10000\n",
    b"S\tB\t1\t0\t5\t2000000\tP\t100000000\t-100000000\t3\t1000000\t-1000000\t6\t-2000000\n",
    b"S\tB\t2\t0\t5\t2000000\tC\t1\t2\t3\t4\t5\t6\t7\n",
    b"S\tF\t9\t2010000\t10\t2010000\n",
];

pub const STEPS_OF_BAD_FORM: [&[u8]; 16] = [
    b"S\tX\t6\t2000000\t6\t2006586\t1\t2\t3\n",
    b"S\t\t6\t2000000\t6\t2006586\t1\t2\t3\n",
    b"S\tTT\t6\t2000000\t6\t2006586\t1\t2\t3\n",
    b"S\tT\t6\t2000000\t6\t2006586\t1\t2\n",
    b"S\tT\t6\t2000000\t6\t2006586\t1\t2\t3\t4\n",
    b"S\tT\t6\t2000000\t6\t2006586\t1\t2\t03\n",
    b"S\tB\t1\t0\t5\t2000000\t1\t2\t3\t4\t5\t6\t7\n",
    b"S\tB\t1\t0\t5\t2000000\tX\t1\t2\t3\t4\t5\t6\t7\n",
    b"S\tB\t1\t0\t5\t2000000\t\t1\t2\t3\t4\t5\t6\t7\n",
    b"S\tB\t1\t0\t5\t2000000\tP\t1\t2\t3\t4\t5\t6\n",
    b"S\tF\t9\t2010000\t10\t2010000\t1\n",
    b"S\tF\t9\t2010000\t10\t2010000\t\n",
    b"S\tF\t9\t2010000\t10\n",
    b"S\n",
    b"S\tF\t9\t2010000\t10\t2010000",
    b"P\tA1\t1\t1\t6\t2000000\t1\t2\t3\n",
];

pub const STEPS_OUT_OF_RANGE: [&[u8]; 13] = [
    b"S\tT\t6\t2000000\t6\t2006586\t100000001\t2\t3\n",
    b"S\tV\t6\t2000000\t6\t2006586\t1\t-10001\t3\n",
    b"S\tB\t1\t0\t5\t2000000\tP\t1\t2\t3\t1000001\t5\t6\t7\n",
    b"S\tB\t1\t0\t5\t2000000\tC\t1\t2\t3\t4\t5\t6\t2000001\n",
    b"S\tT\t11\t2000000\t6\t2006586\t1\t2\t3\n",
    b"S\tT\t6\t2000000\t6\t99999999999999999999\t1\t2\t3\n",
    b"S\tT\t1\t2000000\t6\t2006586\t1\t2\t3\n",
    b"S\tT\t6\t2000000\t2\t2006586\t1\t2\t3\n",
    b"S\tV\t6\t2000000\t7\t2000000\t1\t2\t3\n",
    b"S\tV\t1\t0\t1\t0\t1\t2\t3\n",
    b"S\tF\t4\t2010000\t10\t2010000\n",
    b"S\tF\t9\t2010000\t9\t2010000\n",
    b"S\tF\t9\t2010000\t10\t2010001\n",
];

pub const ORIGINS: [&[u8]; 14] = [
    b"O\t1\t1440000000\t36720000000\t50000\t-25000\n",
    b"O\t4\t0\t43200000000\t-2000000000\t2000000000\n",
    b"O\t0\t0\t36720000000\t0\t0\n",
    b"O\t5\t0\t36720000000\t0\t0\n",
    b"O\t1\t0\t36720000000\t2000000001\t0\n",
    b"O\t1\t-1\t36720000000\t0\t-2000000001\n",
    b"O\t1\t-1\t36720000000\t0\t0\n",
    b"O\t1\t2880000001\t36720000000\t0\t0\n",
    b"O\t1\t0\t35639999999\t0\t0\n",
    b"O\t1\t0\t43200000001\t0\t0\n",
    b"O\t1\t0\t36720000000\t0\n",
    b"O\t1\t0\t36720000000\t0\t0\t0\n",
    b"O\t1\t0\t036720000000\t0\t0\n",
    b"G\t1\t0\t36720000000\t0\t0\n",
];

pub const POSITIONS: [&[u8]; 8] = [
    b"G\tB1\t1440000000\t36720000000\n",
    b"G\tB1\t2880000001\t36720000000\n",
    b"G\tB1\t0\t35639999999\n",
    b"G\tB1\t99999999999999999999999\t36720000000\n",
    b"G\tB1\t0\t-0\n",
    b"G\t\t0\t36720000000\n",
    b"G\tB1\t0\n",
    b"G\tB1\t0\t36720000000",
];

pub const LATER_OF_TWO: [[&[u8]; 2]; 5] = [
    [
        b"P\tA1\t10\t1\t6\t2000000\t1\t2\t3\n",
        b"P\tA1\t9\t1\t6\t2000000\t1\t2\t3\n",
    ],
    [
        b"P\tA1\t9\t1\t6\t2000000\t1\t2\t3\n",
        b"P\tA1\t10\t1\t6\t2000000\t1\t2\t3\n",
    ],
    [
        b"P\tA1\t9\t1\t6\t2000000\t1\t2\t3\n",
        b"P\tA1\t9\t1\t6\t2000000\t1\t2\t3\n",
    ],
    [
        b"P\tA1\t9\t1\t6\t2000000\t1\t2\t3\n",
        b"P\tA1\t9\t1\t6\t2000000\t1\t2\t4\n",
    ],
    [
        b"P\tA1\t9\t1\t6\t2000000\t1\t2\t3\n",
        b"P\tA2\t10\t1\t6\t2000000\t1\t2\t3\n",
    ],
];

// One of the two lines is refused, or both.
pub const LATER_OF_REFUSED: [[&[u8]; 2]; 8] = [
    [
        b"P\tA1\t9\t1\t6\t0\t1\t2\t3\n",
        b"P\tA1\tx\t1\t6\t2000000\t1\t2\t3\n",
    ],
    [
        b"P\tA1\t0\t1\t6\t2000000\t1\t2\t3\n",
        b"P\tA1\tx\t1\t6\t2000000\t1\t2\t3\n",
    ],
    [
        b"P\tA1\t01\t1\t6\t2000000\t1\t2\t3\n",
        b"P\tA1\t0\t1\t6\t2000000\t1\t2\t3\n",
    ],
    [
        b"P\tA1\t9\t1\t6\t2000000\t1\t2\t3\n",
        b"P\tA1\t0\t1\t6\t2000000\t1\t2\t3\n",
    ],
    [
        b"P\tA1\t9\t1\t6\t2000000\t1\t2\t3\n",
        b"P\tA2\t9\t1\t6\t0\t1\t2\t3\n",
    ],
    [b"", b""],
    [
        b"P\tA1\t9\t1\t6\t2000000\t1\t2\t3\n",
        b"P\tA1\t10\t1\t6\t2000000\t1\tx\t3\n",
    ],
    [
        b"P\tA1\t9\t1\t6\t2000000\t1\t2\t3\n",
        b"P\tA1\t10\t1\t6\t2000000\t1\t2\t3",
    ],
];

// Lines with more than one thing wrong: the order is over the whole line, not from left to right.
pub const STEPS_OF_MANY_FAULTS: [&[u8]; 6] = [
    b"S\tB\t1\t0\t5\t2000000\tX\t01\n",
    b"S\tB\t01\t0\t5\t2000000\t\t1\t2\t3\t4\t5\t6\t7\n",
    b"S\tX\n",
    b"S\tB\t01\n",
    b"S\tT\t01\t2000000\t6\t2006586\t1\t2\n",
    b"T\tX\t01",
];

pub const POINTS_OF_MANY_FAULTS: [&[u8]; 5] = [
    b"P\ta1\t1\t1\t6\t2000000\t1\t2\n",
    b"P\ta1\t01\t1\t6\t2000000\t1\t2\t3\n",
    b"P\tA1\t1\t1\t06\t2000000\t1\t2\tx\n",
    b"p\ta1\t01\n",
    b"p\ta1\t01",
];

pub const ORIGINS_OF_MANY_FAULTS: [&[u8]; 1] = [b"O\t1\t0\t036720000000\t0\n"];

pub const POSITIONS_OF_MANY_FAULTS: [&[u8]; 1] = [b"G\tb1\t00\t36720000000\n"];

pub const NUMBERS: [&[u8]; 17] = [
    b"P\tA1\t1\t1\t6\t2000000\t0\t2\t3\n",
    b"P\tA1\t1\t1\t6\t2000000\t-5\t2\t3\n",
    b"P\tA1\t1\t1\t6\t2000000\t9999999999999\t2\t3\n",
    b"P\tA1\t1\t1\t6\t2000000\t-9999999999999\t2\t3\n",
    b"P\tA1\t1\t1\t6\t2000000\t10000000000000\t2\t3\n",
    b"P\tA1\t1\t1\t6\t2000000\t-10000000000000\t2\t3\n",
    b"P\tA1\t1\t1\t6\t2000000\t18446744073709551616\t2\t3\n",
    b"P\tA1\t1\t1\t6\t2000000\t-123456789012345678901234567890\t2\t3\n",
    b"P\tA1\t1\t1\t6\t2000000\t\t2\t3\n",
    b"P\tA1\t1\t1\t6\t2000000\t-\t2\t3\n",
    b"P\tA1\t1\t1\t6\t2000000\t00\t2\t3\n",
    b"P\tA1\t1\t1\t6\t2000000\t-0\t2\t3\n",
    b"P\tA1\t1\t1\t6\t2000000\t+1\t2\t3\n",
    b"P\tA1\t1\t1\t6\t2000000\t1\t\t2\t3\n",
    b"P\tA1\t1\t1\t6\t2000000\t1\n\t2\t3\n",
    b"P\tA1\t1\t1\t6\t2000000\t12a\t2\t3\n",
    b"P\tA1\t1\t1\t6\t2000000\t123456789012345678901234567890x\t2\t3\n",
];

pub const NAMES: [&[u8]; 9] = [
    b"G\tA\t0\t36720000000\n",
    b"G\tEIGHT-88\t0\t36720000000\n",
    b"G\tNINE-NINE\t0\t36720000000\n",
    b"G\tSIXTEEN-BYTES-16\t0\t36720000000\n",
    b"G\tSEVENTEEN-BYTES-17\t0\t36720000000\n",
    b"G\t\t0\t36720000000\n",
    b"G\ta\t0\t36720000000\n",
    b"G\tA\t\t0\t36720000000\n",
    b"G\tA B\t0\t36720000000\n",
];

// Orders of control: 1 to 4, after the issue; lines of eight fields have none. They don't decide the later of two.
pub const ORDERS: [&[u8]; 5] = [
    b"P\tA1\t1\t4\t6\t2000000\t1\t2\t3\n",
    b"P\tA1\t1\t0\t6\t2000000\t1\t2\t3\n",
    b"P\tA1\t1\t5\t6\t2000000\t1\t2\t3\n",
    b"P\tA1\t1\t6\t2000000\t1\t2\t3\n",
    b"P\tA1\t1\t04\t6\t2000000\t1\t2\t3\n",
];

pub const LATER_OF_ORDERS: [[&[u8]; 2]; 4] = [
    [
        b"P\tA1\t9\t1\t6\t2000000\t1\t2\t3\n",
        b"P\tA1\t9\t2\t6\t2000000\t1\t2\t3\n",
    ],
    [
        b"P\tA1\t9\t1\t6\t2000000\t1\t2\t3\n",
        b"P\tA1\t10\t4\t6\t2000000\t1\t2\t3\n",
    ],
    [
        b"P\tA1\t10\t4\t6\t2000000\t1\t2\t3\n",
        b"P\tA1\t9\t1\t6\t2000000\t1\t2\t3\n",
    ],
    [
        b"P\tA1\t9\t5\t6\t2000000\t1\t2\t3\n",
        b"P\tA1\t9\t1\t6\t0\t1\t2\t3\n",
    ],
];

// Editions: the year is not examined by its reader, and is carried up to 10^13.
pub const EDITIONS: [&[u8]; 11] = [
    b"E\t2009\n",
    b"E\t2010\n",
    b"E\t-2009\n",
    b"E\t99999999999999999999\n",
    b"E\t2009",
    b"E2009\n",
    b"EE\t02009\t\n",
    b"E\n",
    b"E\t02009\t\n",
    b"E\t02009\n",
    b"E\t\n",
];
