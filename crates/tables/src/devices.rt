// The device table, a row for each device, and what a row says of its device.

ghost use Rattle.std.specs.Prelude.{◌≡◌};
ghost use Rattle.rules.specs.Device.{is_device, row_of, has_identification, page_count, has_a8, first_protected};

use rules::{Device, Row, Sheet};

// The device table: a row each, under the names that the rules have for them.
const M95040: Row = Row {
    cells: 512,
    page: 16,
    identification: 16,
    width: 1,
    time: 5000,
    srwd: false,
    coded: false,
    triggers: false,
    sheet: Sheet {
        bp00: 0x200,
        bp01: 0x180,
        bp10: 0x100,
        bp11: 0,
    },
};

const M95128D: Row = Row {
    cells: 16384,
    page: 64,
    identification: 64,
    width: 2,
    time: 5000,
    srwd: true,
    coded: false,
    triggers: true,
    sheet: Sheet {
        bp00: 0x4000,
        bp01: 0x3000,
        bp10: 0x2000,
        bp11: 0,
    },
};

const M95M01: Row = Row {
    cells: 131072,
    page: 256,
    identification: 256,
    width: 3,
    time: 4000,
    srwd: true,
    coded: false,
    triggers: false,
    sheet: Sheet {
        bp00: 0x20000,
        bp01: 0x18000,
        bp10: 0x10000,
        bp11: 0,
    },
};

const M95M02: Row = Row {
    cells: 262144,
    page: 256,
    identification: 256,
    width: 3,
    time: 5000,
    srwd: true,
    coded: true,
    triggers: false,
    sheet: Sheet {
        bp00: 0x40000,
        bp01: 0x30000,
        bp10: 0x20000,
        bp11: 0,
    },
};

const M95010: Row = Row {
    cells: 128,
    page: 16,
    identification: 0,
    width: 1,
    time: 5000,
    srwd: false,
    coded: false,
    triggers: false,
    sheet: Sheet {
        bp00: 0x80,
        bp01: 0x60,
        bp10: 0x40,
        bp11: 0,
    },
};

const M95020: Row = Row {
    cells: 256,
    page: 16,
    identification: 0,
    width: 1,
    time: 5000,
    srwd: false,
    coded: false,
    triggers: false,
    sheet: Sheet {
        bp00: 0x100,
        bp01: 0xC0,
        bp10: 0x80,
        bp11: 0,
    },
};

const M95128: Row = Row {
    cells: 16384,
    page: 64,
    identification: 0,
    width: 2,
    time: 5000,
    srwd: true,
    coded: false,
    triggers: true,
    sheet: Sheet {
        bp00: 0x4000,
        bp01: 0x3000,
        bp10: 0x2000,
        bp11: 0,
    },
};

// Whether there is a device of this number.
pub fn is_device(device: u8) -> bool
    ensures { result ≡ is_device device }
{
    (1 <= device) & (device <= 7)
}

// The row of a device; of a number that is no device's, the first. A match and no array: a constant array is built anew at each look.
pub fn row_of(device: u8) -> Row
    ensures { result ≡ row_of device }
{
    match device {
        2 => M95128D,
        3 => M95M01,
        4 => M95M02,
        5 => M95010,
        6 => M95020,
        7 => M95128,
        _ => M95040,
    }
}

// A device by its number, with its row.
pub fn device(number: u8) -> Device
    ensures { result.row ≡ row_of number }
{
    Device {
        row: row_of(number),
    }
}

// Whether the device has an identification page.
pub fn has_identification(row: Row) -> bool
    ensures { result ≡ has_identification row }
{
    row.identification != 0
}

// How many pages the cells make, which is how many counts a device has.
pub fn page_count(device: Device) -> usize
    ensures { result ≡ page_count device.row }
{
    device.row.cells / device.row.page
}

// Whether bit 3 of READ's and WRITE's code is A8: one address byte cannot name every cell.
pub fn has_a8(row: Row) -> bool
    ensures { result ≡ has_a8 row }
{
    (row.width == 1) & (256 < row.cells)
}

// The service sheet's entry under a setting of BP1 and BP0: the first protected address.
pub fn first_protected(row: Row, bp: u8) -> usize
    ensures { result ≡ first_protected row bp }
{
    match bp {
        0 => row.sheet.bp00,
        1 => row.sheet.bp01,
        2 => row.sheet.bp10,
        _ => row.sheet.bp11,
    }
}
